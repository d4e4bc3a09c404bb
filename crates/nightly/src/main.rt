// Many cases in one stream. A case is a header line and a body; each is answered by one line.
#![tactic(auto)]

mod answer;
mod broken;
mod indexing;
mod room;

ghost use Rattle.std.specs.Prelude.{◌<◌, ◌≤◌, length};
ghost use Rattle.stream.specs.Window.{Within};
ghost use Rattle.nightly.specs.Turns.{TakesOf, StaysIn};

use broken::{Fault, Place};
use headers::Case;
use std::ops::ControlFlow;
use stream::{Ending, Reading, Unread};

// How many bytes a case has, all of them there and answered; or what is wrong with it where no more
// comes; or what is wrong with it; or its answer was not written.
#[derive(Clone, Copy)]
enum First {
    Took(usize),
    Short(Fault),
    Bad(Fault),
    Unwritten,
}

// Where the run is: the unread bytes, and the place of the case that they begin with.
#[derive(Clone, Copy)]
struct Run {
    unread: Unread,
    place: Place,
}

// How many bytes stand before the first line feed; all where there is none.
fn line_length(s: &[u8]) -> usize
    ensures { result ≤ length s.now }
{
    s.iter().position(|b| *b == b'\n').unwrap_or(s.len())
}

// Answers the first case of some bytes, whose header has n bytes, if it is all there.
fn answer_case(rt: &(impl Print + Eprint), case: Case, n: usize, s: &[u8], room: &mut [u8]) -> First
    requires { n < length s.now }
    ensures { TakesOf s.now result }
{
    let start = n + 1;
    if s.len() - start < case.fixed {
        return First::Short(Fault::FixedCut {
            stated: case.fixed,
            came: s.len() - start,
        });
    }
    let middle = start + case.fixed;
    if s.len() - middle < case.length {
        return First::Short(Fault::BodyCut {
            stated: case.length,
            came: s.len() - middle,
        });
    }
    let end = middle + case.length;
    let ask = case.ask;
    let flow = headers::word(&s[0..n], 2);
    match answer::answer(rt, ask, flow, &s[start..middle], &s[middle..end], room) {
        Ok(()) => First::Took(end),
        Err(_) => First::Unwritten,
    }
}

// Answers the first case of some bytes, if it is all there.
fn answer_first(rt: &(impl Print + Eprint), s: &[u8], room: &mut [u8]) -> First
    ensures { TakesOf s.now result }
{
    let n = line_length(s);
    if n == s.len() {
        return First::Short(Fault::HeaderCut);
    }
    match headers::read(&s[0..n]) {
        Ok(case) => answer_case(rt, case, n, s, room),
        Err(fault) => First::Bad(Fault::Header(fault)),
    }
}

// Ends a run whose stream is broken: says what is wrong with the case that some bytes begin with. The
// run is hindered whether or not its last line is written.
fn end_broken(rt: &(impl Print + Eprint), place: Place, fault: Fault, s: &[u8]) -> Ending {
    let _ = stream::print(rt, b"bad header\n");
    let n = line_length(s);
    broken::tell_broken(rt, place, fault, headers::word(&s[0..n], 1));
    Ending::Hindered
}

// Ends a run at the end of its input, where no byte of a case may be left.
fn end_input(rt: &(impl Print + Eprint), place: Place, lack: Fault, left: &[u8]) -> Ending {
    if left.is_empty() {
        return Ending::Well;
    }
    end_broken(rt, place, lack, left)
}

// The unread bytes of a window.
fn unread_of<'a>(window: &'a [u8], u: Unread) -> &'a [u8]
    requires { Within window.now u.from u.to }
{
    let from = u.from;
    let to = u.to;
    &window[from..to]
}

// Reads on, where a case is not all there. The run goes on from where it is, or breaks off with its ending.
fn read_more(
    rt: &(impl Input + Print + Eprint),
    window: &mut [u8],
    run: Run,
    lack: Fault,
) -> ControlFlow<Ending, Run>
    requires { Within window.old run.unread.from run.unread.to }
    ensures { StaysIn window.new result }
{
    let place = run.place;
    match stream::more(rt, b"nightly", window, run.unread) {
        Reading::Came(u) => ControlFlow::Continue(Run {
            unread: u,
            place: place,
        }),
        Reading::Ended(u) => ControlFlow::Break(end_input(rt, place, lack, unread_of(window, u))),
        Reading::Full(u) => {
            ControlFlow::Break(end_broken(rt, place, Fault::HeaderLong, unread_of(window, u)))
        }
        Reading::Failed => ControlFlow::Break(Ending::Hindered),
    }
}

// Answers a case, or reads on.
fn one_turn(
    rt: &(impl Input + Print + Eprint),
    window: &mut [u8],
    room: &mut [u8],
    run: Run,
) -> ControlFlow<Ending, Run>
    requires { Within window.old run.unread.from run.unread.to }
    ensures { StaysIn window.new result }
{
    let place = run.place;
    let from = run.unread.from;
    let to = run.unread.to;
    match answer_first(rt, &window[from..to], room) {
        First::Took(n) => ControlFlow::Continue(Run {
            unread: Unread {
                from: from + n,
                to: to,
            },
            place: place.past(n),
        }),
        First::Short(lack) => read_more(rt, window, run, lack),
        First::Bad(fault) => ControlFlow::Break(end_broken(rt, place, fault, &window[from..to])),
        First::Unwritten => ControlFlow::Break(Ending::Hindered),
    }
}

// A proved loop has to end, and nothing says that the input does. So the loop makes so many turns that no run uses them up.
fn go_through(rt: &(impl Input + Print + Eprint), window: &mut [u8], room: &mut [u8]) -> Ending {
    let mut run = Run {
        unread: Unread { from: 0, to: 0 },
        place: Place { case: 1, at: 0 },
    };
    for _ in 0..u64::MAX {
        match one_turn(rt, window, room, run) {
            ControlFlow::Continue(next) => run = next,
            ControlFlow::Break(ending) => return ending,
        }
    }
    Ending::Hindered
}

// The window holds the longest body, a fixed value and a field of 1,114,112 bytes each, behind a header of 65,536 bytes.
fn main(rt: HostRuntime) {
    let mut window = [0u8; 2293760];
    let mut room = [0u8; 1114112];
    stream::end(&rt, go_through(&rt, &mut window, &mut room));
}
