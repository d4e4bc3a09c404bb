// The byte that stops the reading of a line, and why. The text is walked again from the line's first byte, by the walk that refused it.
ghost use Rattle.std.specs.Prelude.{◌≡◌};
ghost use Rattle.commas.specs.Stopping.{fault_at, fault_of, is_break, stop_by, stop_end, mark_of, stop_in};

use record::{FEED, TAB};
use rfc4180::{QUOTE, RETURN, State};

// What stops a line: a tab; a line feed or a carriage return without the other; a byte that no text has; a quotation mark inside
// a field that is not quoted; a byte behind a closing one; one that is not closed.
#[derive(Clone, Copy, PartialEq, Eq)]
pub enum Fault {
    Tab,
    Feed,
    Return,
    Foreign,
    Inside,
    Behind,
    Open,
}

// The fault, and the place of the byte that has it.
#[derive(Clone, Copy, PartialEq, Eq)]
pub struct Stop {
    pub fault: Fault,
    pub at: usize,
}

// A fault at a place.
fn fault_at(fault: Fault, at: usize) -> Stop
    ensures { result ≡ fault_at fault at }
{
    Stop { fault, at }
}

// The byte breaks a line.
#[tactic(auto, unfolding(crate::specs::Stopping::is_break))]
fn breaks(b: u8) -> bool
    ensures { result ≡ is_break b }
{
    matches!(b, RETURN | FEED)
}

// The fault of a byte that breaks no line.
#[tactic(auto, unfolding(crate::specs::Stopping::fault_of))]
fn fault_of(b: u8) -> Fault
    ensures { result ≡ fault_of b }
{
    match b {
        TAB => Fault::Tab,
        QUOTE => Fault::Inside,
        32..=126 => Fault::Behind,
        _ => Fault::Foreign,
    }
}

// The fault of the byte at i, which stops the walk; where an end was awaited, that of the byte that began it.
#[tactic(auto, unfolding(crate::specs::Stopping::stop_by))]
fn stop_by(st: State, b: u8, i: usize, mark: usize) -> Stop
    ensures { result ≡ stop_by st b i mark }
{
    match st {
        State::AfterReturn => fault_at(Fault::Return, mark),
        State::InQuotes if breaks(b) => fault_at(Fault::Open, mark),
        _ if breaks(b) => fault_at(Fault::Feed, i),
        _ => fault_at(fault_of(b), i),
    }
}

// The same where the text ends; nothing where it may end there.
#[tactic(auto, unfolding(crate::specs::Stopping::stop_end))]
fn stop_end(st: State, mark: usize) -> Option<Stop>
    ensures { result ≡ stop_end st mark }
{
    match st {
        State::AfterReturn => Some(fault_at(Fault::Return, mark)),
        State::InQuotes => Some(fault_at(Fault::Open, mark)),
        _ => None,
    }
}

// The place of the last byte that began a field, or the end of a line.
fn mark_of(st: State, next: State, i: usize, mark: usize) -> usize
    ensures { result ≡ mark_of st next i mark }
{
    match (st, next) {
        (State::AtLine | State::AtField, _) | (_, State::AfterReturn) => i,
        _ => mark,
    }
}

// What stops the reading of the line that starts at `from`, or of one behind it.
pub fn find(text: &[u8], from: usize) -> Option<Stop>
    ensures { result ≡ stop_in text.now from }
{
    let mut st = State::AtLine;
    let mut mark = from;
    for i in from..text.len() {
        let next = st.after(text[i]);
        if next == State::Stopped {
            return Some(stop_by(st, text[i], i, mark));
        }
        mark = mark_of(st, next, i, mark);
        st = next;
    }
    stop_end(st, mark)
}
