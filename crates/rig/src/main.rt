// The rig: one program for people at the bench. It prints the answer's line and, for a refusal, a
// sentence on it and the byte that it points at. What hinders a call is said on standard error.
#![tactic(auto)]

mod arguments;
mod asking;
mod call;
mod indexing;
mod judging;
mod making;

use stream::Ending;

// One byte more than a file may have, so that a file that is too long shows.
fn main(rt: HostRuntime) {
    let mut room = [0u8; 1048577];
    stream::end(&rt, call::run(&rt, &mut room).unwrap_or(Ending::Hindered));
}
