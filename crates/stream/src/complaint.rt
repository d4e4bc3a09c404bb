// What hinders a program, said on standard error. Where the system's word on it is said too, it comes
// with the error that the call gave.
use crate::line::Line;
use crate::shown::show_whole;
use std::fmt::InlineText;
use std::io::Error;

// Writes to standard error; bytes that are no text are written as people can read them. Where that
// fails, there is nowhere left to say it.
pub fn tell(rt: &impl Eprint, bytes: &[u8]) {
    match std::str::from_utf8(bytes) {
        Ok(text) => {
            let _ = rt.eprint(text);
        }
        Err(_) => tell_shown(rt, bytes),
    }
}

// Writes a number to standard error.
pub fn tell_number(rt: &impl Eprint, n: u64) {
    let _ = rt.eprint(n);
}

// Writes bytes to standard error as people can read them. A part that can't be written is no reason to leave out those behind it.
pub fn tell_shown(rt: &impl Eprint, bytes: &[u8]) {
    let _ = show_whole(bytes, |part| {
        if let Ok(text) = std::str::from_utf8(part) {
            let _ = rt.eprint(text);
        }
        Ok(())
    });
}

// Says what hinders a program.
pub fn complain(rt: &impl Eprint, program: &[u8], why: &[u8]) {
    tell(rt, program);
    tell(rt, b": ");
    tell(rt, why);
    tell(rt, b"\n");
}

// Says what failed, a colon and the system's word on it, without the error's number.
pub fn fail(rt: &impl Eprint, what: &[u8], e: Error) {
    let said = InlineText::<256>::of(e);
    let all = said.as_str();
    let word = match all.split_once(" (os error ") {
        Some((before, _)) => before,
        None => all,
    };
    tell(rt, what);
    tell(rt, b": ");
    tell(rt, word.as_bytes());
    tell(rt, b"\n");
}

// Says what a program can't do with a file, and the system's word on it. The name is shown, as much of
// it as 16,384 bytes hold: each of the 4,095 bytes that a path may have takes at most four.
pub fn complain_of(rt: &impl Eprint, program: &[u8], what: &[u8], path: &[u8], e: Error) {
    let mut name = [0u8; 16384];
    let n = legible::show(path, &mut name);
    let mut line = Line::<16640>::new();
    line.put(program);
    line.put(b": can't ");
    line.put(what);
    line.put(b" '");
    line.put(&name[..n]);
    line.put(b"'");
    fail(rt, line.as_bytes(), e);
}

// Says that a program can't read standard input, and the system's word on it.
pub fn complain_of_input(rt: &impl Eprint, program: &[u8], e: Error) {
    let mut line = Line::<128>::new();
    line.put(program);
    line.put(b": can't read standard input");
    fail(rt, line.as_bytes(), e);
}
