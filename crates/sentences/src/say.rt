// Numbers and bytes on standard output. Each of these fails where not all of it was written.
use stream::{Unwritten, print};

const RETURN: u8 = 0x0D;

// A number in decimal digits.
pub fn number(rt: &(impl Print + Eprint), n: usize) -> Result<(), Unwritten> {
    stream::print_number(rt, n as u64)
}

// Bytes as people can read them, at most 64 of them.
fn first(rt: &(impl Print + Eprint), s: &[u8]) -> Result<(), Unwritten> {
    stream::print_shown(rt, text::part(s, 0, 64))
}

// Where bytes are more than 64, that is said.
fn rest(rt: &(impl Print + Eprint), s: &[u8]) -> Result<(), Unwritten> {
    if 64 < s.len() {
        return print(rt, b" and more");
    }
    Ok(())
}

// Bytes as they stand in a type's spelling.
pub fn spelled(rt: &(impl Print + Eprint), s: &[u8]) -> Result<(), Unwritten> {
    first(rt, s)?;
    rest(rt, s)
}

// Bytes between quotes; or nothing.
pub fn quoted(rt: &(impl Print + Eprint), s: &[u8]) -> Result<(), Unwritten> {
    if s.is_empty() {
        return print(rt, b"nothing");
    }
    print(rt, b"`")?;
    first(rt, s)?;
    print(rt, b"`")?;
    rest(rt, s)
}

// What was found.
pub fn found(rt: &(impl Print + Eprint), s: &[u8]) -> Result<(), Unwritten> {
    print(rt, b"; found ")?;
    quoted(rt, s)
}

// Where bytes end in a carriage return, that is said.
pub fn say_return(rt: &(impl Print + Eprint), s: &[u8]) -> Result<(), Unwritten> {
    if words::ends_in(RETURN, s) {
        return print(
            rt,
            b"; it ends in a carriage return: lines end in a line feed alone",
        );
    }
    Ok(())
}

// What was found as a field or a kind; a carriage return at its end is named.
pub fn found_field(rt: &(impl Print + Eprint), s: &[u8]) -> Result<(), Unwritten> {
    found(rt, s)?;
    say_return(rt, s)
}
