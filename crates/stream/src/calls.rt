// Reads and writes of the system. A call that was interrupted is made again, and one that failed is
// told apart from the end of the input. A proved loop has to end, and nothing says that interruptions
// do: so the loops make so many tries that no run uses them up.
ghost use Rattle.std.specs.Io.{ReadsAtMost, WritesAtMost};

use std::io::{Error, ErrorKind, Read, Write};

// One read: how many bytes came, 0 at the end of the input; or why it failed.
pub fn read_some<R: Read>(from: &mut R, room: &mut [u8]) -> std::io::Result<usize>
    ensures { ReadsAtMost result room.new }
{
    for _ in 0..u64::MAX {
        match from.read(room) {
            Err(e) if e.kind() == ErrorKind::Interrupted => {}
            read => return read,
        }
    }
    Err(Error::from(ErrorKind::Interrupted))
}

// One write: how many bytes were taken; or why it failed. The loop stands twice: over a closure that lends the room anew at each try
// nothing says that the room's length stays, which `ReadsAtMost` speaks of.
fn write_some<W: Write>(to: &mut W, bytes: &[u8]) -> std::io::Result<usize>
    ensures { WritesAtMost result bytes.now }
{
    for _ in 0..u64::MAX {
        match to.write(bytes) {
            Err(e) if e.kind() == ErrorKind::Interrupted => {}
            written => return written,
        }
    }
    Err(Error::from(ErrorKind::Interrupted))
}

// Writes all bytes, or gives why that could not be done.
pub fn write_whole<W: Write>(to: &mut W, bytes: &[u8]) -> std::io::Result<()> {
    let mut left = bytes;
    while !left.is_empty() {
        match write_some(to, left)? {
            0 => return Err(Error::from(ErrorKind::WriteZero)),
            n => left = &left[n..],
        }
    }
    Ok(())
}

// Reads until the room is full or the input ends, and gives how many bytes came; or why that failed. std's `read_exact` does not tell an
// input that ends early from one that fails.
pub fn read_whole<R: Read>(from: &mut R, room: &mut [u8]) -> std::io::Result<usize>
    ensures { ReadsAtMost result room.new }
{
    let mut done = 0;
    while done < room.len() {
        let n = read_some(from, &mut room[done..])?;
        if n == 0 {
            break;
        }
        done += n;
    }
    Ok(done)
}
