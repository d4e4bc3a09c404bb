// How a sentence begins: the record and the field of a refusal.
use crate::say;
use place::Refusal;
use record::TAB;
use stream::{Unwritten, print};

// A sheet has lines, a file records.
fn say_line(rt: &(impl Print + Eprint), sep: u8, n: usize) -> Result<(), Unwritten> {
    if sep == TAB {
        print(rt, b"In line ")?;
        return say::number(rt, n);
    }
    print(rt, b"In record ")?;
    say::number(rt, n)
}

// `, TA2`: a record's kind, where the flow has it.
pub fn say_kind(
    rt: &(impl Print + Eprint),
    t: &[u32],
    sep: u8,
    file: &[u8],
    n: usize,
) -> Result<(), Unwritten> {
    let kind = findings::kind_at(t, sep, file, n);
    if kind == 0 {
        return Ok(());
    }
    print(rt, b", ")?;
    print(rt, &layout::name_of(t, kind))
}

// `, field 3`, where a field is given.
fn say_field(rt: &(impl Print + Eprint), k: usize) -> Result<(), Unwritten> {
    if k == 0 {
        return Ok(());
    }
    print(rt, b", field ")?;
    say::number(rt, k)
}

// `In record 4, ZPT, field 3: `, as far as they are given. Refusal 14 is at a record that is not there.
pub fn say_heading(
    rt: &(impl Print + Eprint),
    t: &[u32],
    sep: u8,
    file: &[u8],
    r: Refusal,
) -> Result<(), Unwritten> {
    let n = r.record;
    if n == 0 {
        return print(rt, b"The rule: ");
    }
    if r.number == 14 {
        say_line(rt, sep, n)?;
        return print(rt, b", which is not there: ");
    }
    say_line(rt, sep, n)?;
    say_kind(rt, t, sep, file, n)?;
    say_field(rt, r.field)?;
    print(rt, b": ")
}
