// The sentence on words that ask for no flow that we hold, or for another than the one that is meant.
use crate::{refusals, say};
use stream::{Unwritten, print};

// The sentence on words that are refused with a number.
pub fn about_words(
    rt: &(impl Print + Eprint),
    words: &[u8],
    number: usize,
) -> Result<(), Unwritten> {
    print(rt, b"The rule: ")?;
    refusals::rule(rt, number)?;
    say::found(rt, findings::refused_part(words, number))?;
    print(rt, b".\n")
}
