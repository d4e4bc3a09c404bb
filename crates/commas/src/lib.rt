// What is said to people about a comma-separated text that is refused, before and behind the rule: the line, and what was found.
// Each is a part of one sentence on standard output; its function fails where not all of it was written.
#![tactic(auto)]

mod stop;

use place::Refusal;
use record::BAR;
use stop::{Fault, Stop};
use stream::{Unwritten, print, print_number};

// `In line 4: `; of a refusal of the whole there is no line.
pub fn say_line(rt: &(impl Print + Eprint), n: usize) -> Result<(), Unwritten> {
    if n == 0 {
        return print(rt, b"The rule: ");
    }
    print(rt, b"In line ")?;
    print_number(rt, n as u64)?;
    print(rt, b": ")
}

// `; found a tab at byte 17`.
fn say_found(rt: &(impl Print + Eprint), what: &[u8], at: usize) -> Result<(), Unwritten> {
    print(rt, b"; found ")?;
    print(rt, what)?;
    print(rt, b" at byte ")?;
    print_number(rt, at as u64)
}

// The same of a byte that is shown.
fn say_byte(rt: &(impl Print + Eprint), text: &[u8], at: usize) -> Result<(), Unwritten> {
    print(rt, b"; found `")?;
    stream::print_shown(rt, text::part(text, at, 1))?;
    print(rt, b"` at byte ")?;
    print_number(rt, at as u64)
}

// The fault that stops the reading, and what would be right.
fn say_fault(rt: &(impl Print + Eprint), text: &[u8], s: Stop) -> Result<(), Unwritten> {
    let at = s.at;
    match s.fault {
        Fault::Tab => {
            say_found(rt, b"a tab", at)?;
            print(rt, b": commas part the fields")
        }
        Fault::Feed => {
            say_found(rt, b"a line feed", at)?;
            print(rt, b" without a carriage return before it")
        }
        Fault::Return => {
            say_found(rt, b"a carriage return", at)?;
            print(rt, b" without a line feed behind it")
        }
        Fault::Foreign => {
            say_byte(rt, text, at)?;
            print(rt, b", which is none of bytes 32 to 126")
        }
        Fault::Inside => {
            say_found(rt, b"a quotation mark", at)?;
            print(rt, b" inside a field that does not start with one")
        }
        Fault::Behind => {
            say_byte(rt, text, at)?;
            print(
                rt,
                b" behind a closing quotation mark, where only a comma or the end of the line may stand",
            )
        }
        Fault::Open => {
            say_found(rt, b"a quotation mark", at)?;
            print(rt, b" that is not closed in its line")
        }
    }
}

// The first bar of a text; the line that is refused for one is the first that has one.
fn say_bar(rt: &(impl Print + Eprint), text: &[u8]) -> Result<(), Unwritten> {
    match text.iter().position(|b| *b == BAR) {
        Some(at) => say_found(rt, b"a bar", at),
        None => Ok(()),
    }
}

// A text over its limit is read no further than a file's. One within it makes a sheet over the limit in one way alone.
fn say_size(rt: &(impl Print + Eprint), text: &[u8]) -> Result<(), Unwritten> {
    if 1048000 < text.len() {
        return print(rt, b"; found more than 1,048,000 bytes");
    }
    print(
        rt,
        b"; found 1,048,000 bytes, and a sheet of one more: a line feed ends its last line",
    )
}

// What was found in a text that is refused, and what would be right.
pub fn say_details(rt: &(impl Print + Eprint), text: &[u8], r: Refusal) -> Result<(), Unwritten> {
    match r.number {
        2 => say_size(rt, text),
        16 => say_bar(rt, text),
        20 => match stop::find(text, r.place) {
            Some(stop) => say_fault(rt, text, stop),
            None => Ok(()),
        },
        _ => Ok(()),
    }
}
