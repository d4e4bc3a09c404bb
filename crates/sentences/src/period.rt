// The sentence on a refusal where it is asked whether a period is in a file.
use crate::{found, naming, say};
use place::Refusal;
use record::BAR;
use stream::{Unwritten, print};

// That there is no such period, and which there are.
fn say_no_period(rt: &(impl Print + Eprint), period: usize) -> Result<(), Unwritten> {
    print(rt, b"There is no period ")?;
    say::number(rt, period)?;
    print(rt, b": periods are 1 to 50.\n")
}

// The sentence on a refusal: 18 is of the period, 22 of the flow, any other of the words or the file, as the reader gives it.
pub fn about_period(
    rt: &(impl Print + Eprint),
    flow: &[u8],
    file: &[u8],
    period: usize,
    r: Refusal,
) -> Result<(), Unwritten> {
    match r.number {
        18 => say_no_period(rt, period),
        22 => naming::about_words(rt, flow, r.number),
        _ => found::about_file(rt, flow, BAR, file, r),
    }
}
