// What is said to people about a refusal: where it is, the rule, what was found and what would be right.
// Each sentence is one line on standard output; its function fails where not all of it was written.
#![tactic(auto)]

mod ask;
mod calendar;
mod form;
mod found;
mod heading;
mod kinds;
mod naming;
mod period;
mod refusals;
mod say;
mod step;

pub use ask::about_field;
pub use found::about_file;
pub use period::about_period;
pub use refusals::{explain, rule};
pub use step::about_stop;
