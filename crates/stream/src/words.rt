// The words that a program was called with, its own name among them.
ghost use Rattle.io.specs.Counts.{IsPrefixLen};

use std::env::FillError;
use std::rt::Env;

// Puts word i at the front of the room, and gives how many bytes it has: none where it is missing or longer than the room.
pub fn arg(rt: &impl Env, i: usize, room: &mut [u8]) -> usize
    ensures { IsPrefixLen result room.new }
{
    rt.arg(i, room).unwrap_or(0)
}

// How many words there are.
pub fn arg_count(rt: &impl Env) -> usize {
    let mut room = [0u8; 1];
    for n in 0..usize::MAX {
        if let Err(FillError::NotPresent) = rt.arg(n, &mut room) {
            return n;
        }
    }
    usize::MAX
}
