// How a run ended. A program says a closing word on a channel of its own, and the command that started it
// turns the word into the status; where no word came, the run was hindered.
use crate::calls::write_whole;
use crate::complaint::fail;
use std::fs::{OpenFile, OpenOptions, metadata};
use std::rt::Files;

// The channel of the closing word: descriptor 3.
const CLOSING: &str = "/proc/self/fd/3";

// Standard output.
const OUTPUT: &str = "/proc/self/fd/1";

// All is well; or the answer is a refusal; or something hindered the run, and standard error says what.
#[derive(Clone, Copy)]
pub enum Ending {
    Well,
    Refused,
    Hindered,
}

// Says the closing word: the exit status, and a line feed. Where that fails, no word came.
fn say(rt: &impl Files, word: &[u8]) {
    if let Ok(mut channel) = OpenOptions::new().write(true).open(rt, CLOSING) {
        let _ = write_whole(&mut channel, word);
    }
}

// Has a file that is standard output put on its disk: a disk that was full may tell only then. What is no
// file has nothing to put, and one that we may not open a second time tells at each write alone.
fn settle(rt: &(impl Files + Print)) -> std::io::Result<()> {
    rt.write_some(b"")?;
    if !metadata(rt, OUTPUT)?.is_file() {
        return Ok(());
    }
    match OpenOptions::new().write(true).open(rt, OUTPUT) {
        Ok(file) => file.sync_all(),
        Err(_) => Ok(()),
    }
}

// Has standard output settle, and then says the word.
fn settle_and_say(rt: &(impl Files + Print + Eprint), word: &[u8]) {
    match settle(rt) {
        Ok(()) => say(rt, word),
        Err(e) => {
            fail(rt, b"can't write standard output", e);
            say(rt, b"2\n");
        }
    }
}

// Ends a run. One that was hindered has said by what.
pub fn end(rt: &(impl Files + Print + Eprint), ending: Ending) {
    match ending {
        Ending::Well => settle_and_say(rt, b"0\n"),
        Ending::Refused => settle_and_say(rt, b"1\n"),
        Ending::Hindered => say(rt, b"2\n"),
    }
}
