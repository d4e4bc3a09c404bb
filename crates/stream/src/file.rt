// A file by its name, or standard input, read whole.
ghost use Rattle.std.specs.Prelude.{◌≡◌};
ghost use Rattle.std.specs.Result.{result_ok};
ghost use Rattle.std.specs.Io.{ReadsAtMost};
ghost use Rattle.stream.specs.File.{Loads};

use crate::calls::read_whole;
use crate::complaint::{complain_of, complain_of_input};
use crate::path::open_read;
use std::io::Error;
use std::rt::Files;

// How many bytes came, of a read that succeeded; the error of one that failed is told.
fn loaded<F: FnOnce(Error)>(read: std::io::Result<usize>, tell: F) -> Option<usize>
    requires { F.IsAlwaysCallable tell }
    ensures { result ≡ result_ok read }
{
    read.map_err(tell).ok()
}

// Opens a file and reads it, as much of it as there is room for, and gives how many bytes came.
fn read_file(rt: &impl Files, path: &[u8], room: &mut [u8]) -> std::io::Result<usize>
    ensures { ReadsAtMost result room.new }
{
    let mut file = open_read(rt, path)?;
    read_whole(&mut file, room)
}

// Reads a file, as much of it as there is room for, and gives how many bytes came; where that fails, it says why.
pub fn load(
    rt: &(impl Files + Eprint),
    program: &[u8],
    path: &[u8],
    room: &mut [u8],
) -> Option<usize>
    ensures { Loads room.new result }
{
    loaded(
        read_file(rt, path, room),
        |e| complain_of(rt, program, b"read", path, e),
    )
}

// The same of standard input.
pub fn load_input(rt: &(impl Input + Eprint), program: &[u8], room: &mut [u8]) -> Option<usize>
    ensures { Loads room.new result }
{
    loaded(
        read_whole(&mut rt.reader(), room),
        |e| complain_of_input(rt, program, e),
    )
}
