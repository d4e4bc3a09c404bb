// Standard input through a lent window.
ghost use Rattle.std.specs.Prelude.{◌≡◌, ◌-◌, take, drop};
ghost use Rattle.stream.specs.Window.{Within, GrownBy};

use crate::calls::read_some;
use crate::complaint::complain_of_input;

// The bytes of a window that are read and not used yet: those from `from` up to `to`.
#[derive(Clone, Copy)]
pub struct Unread {
    pub from: usize,
    pub to: usize,
}

// What a read of standard input left: more unread bytes; or no more of them, since the input has ended
// or the window is full; or it failed.
#[derive(Clone, Copy)]
pub enum Reading {
    Came(Unread),
    Ended(Unread),
    Full(Unread),
    Failed,
}

// Moves the unread bytes to the front of the window.
fn to_front(window: &mut [u8], u: Unread) -> Unread
    requires { Within window.old u.from u.to }
    ensures from_value { (result.from ≡ 0) × (result.to ≡ u.to - u.from) }
    ensures window_after { take (u.to - u.from) window.new ≡ take (u.to - u.from) (drop u.from window.old) }
{
    window.copy_within(u.from..u.to, 0);
    Unread {
        from: 0,
        to: u.to - u.from,
    }
}

// One read of standard input, behind the unread bytes; where it fails, it says why.
fn read_on(rt: &(impl Input + Eprint), program: &[u8], window: &mut [u8], u: Unread) -> Reading
    requires { Within window.old u.from u.to }
    ensures { GrownBy window.old u.from u.to window.new result }
{
    let to = u.to;
    if to == window.len() {
        return Reading::Full(u);
    }
    match read_some(&mut rt.reader(), &mut window[to..]) {
        Ok(0) => Reading::Ended(u),
        Ok(n) => Reading::Came(Unread {
            from: u.from,
            to: to + n,
        }),
        Err(e) => {
            complain_of_input(rt, program, e);
            Reading::Failed
        }
    }
}

// One read of standard input; where the window is read to its end, the unread bytes first move to
// its front.
pub fn more(rt: &(impl Input + Eprint), program: &[u8], window: &mut [u8], u: Unread) -> Reading
    requires { Within window.old u.from u.to }
    ensures { GrownBy window.old u.from u.to window.new result }
{
    if u.to < window.len() {
        return read_on(rt, program, window, u);
    }
    let front = to_front(window, u);
    read_on(rt, program, window, front)
}
