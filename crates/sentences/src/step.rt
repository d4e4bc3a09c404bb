// The sentence on a list of kinds that stopped.
use crate::{kinds, naming, say};
use stream::{Unwritten, print};

// Kind n of a list, counted from 1; no bytes where there is none.
fn kind_in<'a>(list: &'a [u8], n: usize) -> &'a [u8] {
    if n == 0 || list.len() / 3 < n - 1 {
        return b"";
    }
    text::part(list, 3 * (n - 1), 3)
}

// The kind that stopped the list; where it is cut short, that is said.
fn say_stop(rt: &(impl Print + Eprint), kind: &[u8]) -> Result<(), Unwritten> {
    if kind.len() < 3 {
        say::quoted(rt, kind)?;
        return print(rt, b", and a kind has three bytes");
    }
    say::quoted(rt, kind)
}

// The kinds that may stand at a place of the list, by the one before it.
fn say_next(
    rt: &(impl Print + Eprint),
    t: &[u32],
    list: &[u8],
    place: usize,
) -> Result<(), Unwritten> {
    if place < 2 {
        return kinds::say_followers(rt, t, 0);
    }
    kinds::say_followers(rt, t, layout::kind_named(t, kind_in(list, place - 1)))
}

// The sentence on a list that stopped at a place, by the flow's table: what was found, and what may stand there.
fn say_place(
    rt: &(impl Print + Eprint),
    t: &[u32],
    list: &[u8],
    place: usize,
) -> Result<(), Unwritten> {
    print(rt, b"In kind ")?;
    say::number(rt, place)?;
    print(rt, b" of the list: found ")?;
    say_stop(rt, kind_in(list, place))?;
    say_next(rt, t, list, place)?;
    print(rt, b".\n")
}

// The sentence on a list that stopped at a place.
pub fn about_stop(
    rt: &(impl Print + Eprint),
    flow: &[u8],
    list: &[u8],
    place: usize,
) -> Result<(), Unwritten> {
    match flow::find(flow) {
        Err(refusal) => naming::about_words(rt, flow, refusal.number),
        Ok(n) => say_place(rt, &flow::table_of(n).numbers, list, place),
    }
}
