// Standard input, whole or through a lent window, files by name, bytes on standard output, sentences on
// standard error, and how a run ends. Nothing is lost in silence.
#![tactic(auto)]

mod calls;
mod complaint;
mod ending;
mod file;
mod input;
mod line;
mod output;
mod path;
mod shown;
mod words;

pub use calls::write_whole;
pub use complaint::{complain, complain_of, tell, tell_number, tell_shown};
pub use ending::{Ending, end};
pub use file::{load, load_input};
pub use input::{Reading, Unread, more};
pub use line::Line;
pub use output::{Unwritten, print, print_number, print_shown};
pub use path::{create, remove};
pub use words::{arg, arg_count};
