// The words that the program was called with, and what hinders a command.
ghost use Rattle.std.specs.Result.{result_ok};
ghost use Rattle.stream.specs.File.{Loads};

use std::env::FillError;
use std::rt::{Env, Files};
use stream::Unwritten;

// Something hindered a command, and that has been said on standard error.
#[derive(Clone, Copy, PartialEq, Eq, Debug)]
pub struct Hindered;

impl From<Unwritten> for Hindered {
    fn from(_e: Unwritten) -> Hindered {
        Hindered
    }
}

// The greatest RECORD, FIELD and PERIOD.
const ASKED_LIMIT: usize = 1000000000;

// Says what hinders the call.
pub fn hinder(rt: &impl Eprint, why: &[u8]) -> Hindered {
    stream::complain(rt, b"rig", why);
    Hindered
}

// The number that word i spells.
pub fn number_word(rt: &impl Env, i: usize) -> Option<usize> {
    let mut digits = io::large_buffer();
    let n = stream::arg(rt, i, &mut digits);
    words::read_number(&digits[..n], 10, ASKED_LIMIT)
}

// Reads the file that word i names.
pub fn load_word(
    rt: &(impl Env + Files + Eprint),
    i: usize,
    room: &mut [u8],
) -> Result<usize, Hindered>
    ensures { Loads room.new (result_ok result) }
{
    let mut path = io::large_buffer();
    let n = stream::arg(rt, i, &mut path);
    stream::load(rt, b"rig", &path[..n], room).ok_or(Hindered)
}

// Whether each of the words is all there in 65,536 bytes.
pub fn all_fit(rt: &impl Env, count: usize) -> bool {
    let mut word = io::large_buffer();
    for i in 0..count {
        if let Err(FillError::TooLong) = rt.arg(i, &mut word) {
            return false;
        }
    }
    true
}
