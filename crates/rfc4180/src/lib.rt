// RFC 4180's text, comma-separated: a walk over it by states, which gives the sheet of its lines.
#![tactic(auto)]

ghost use Rattle.std.specs.Prelude.{◌≡◌, List, ℕ, ◌+◌, ◌≤◌, length, drop};
ghost use Rattle.sheet.specs.Code.{put};
ghost use Rattle.rfc4180.specs.Rfc.{textdata as textdata_of};
ghost use Rattle.rfc4180.specs.declared.State.TheVariants.{AtLine};
ghost use Rattle.rfc4180.specs.Walk.{parting as parting_of, going as going_of, opening as opening_of, inside as inside_of, behind as behind_of, next_of, state_of, number_of, next_number, keeps as keeps_of, turned_of, given_of, ended_of, may_end, sheet_from, Scanned};
ghost use Rattle.rfc4180.specs.Skim.{bare, bare_run, skims, skimmed, led_to, stretch_given, Stretch};

use record::{FEED, TAB};

// The byte that parts fields.
pub const COMMA: u8 = 0x2C;

// The byte that stands around a quoted field.
pub const QUOTE: u8 = 0x22;

// The first of the two bytes that end a line.
pub const RETURN: u8 = 0x0D;

// Where the walk over a text stands: at the start of a line, at the start of a field after a comma, in a field without quotes, in
// quotes, after a quotation mark in quotes, after a CR; or it has stopped.
#[derive(Clone, Copy, PartialEq, Eq)]
pub enum State {
    AtLine,
    AtField,
    Plain,
    InQuotes,
    AfterQuote,
    AfterReturn,
    Stopped,
}

// The numbers of the states, by which `next` is told where the walk stands.
pub const AT_LINE: u8 = 0;

const AT_FIELD: u8 = 1;

pub const PLAIN: u8 = 2;

pub const IN_QUOTES: u8 = 3;

const AFTER_QUOTE: u8 = 4;

pub const AFTER_RETURN: u8 = 5;

pub const STOPPED: u8 = 6;

// A text that goes through: the lines and bytes of its sheet.
#[derive(Clone, Copy, PartialEq, Eq)]
pub struct Through {
    pub lines: usize,
    pub bytes: usize,
}

// The line where a text stops.
#[derive(Clone, Copy, PartialEq, Eq)]
pub struct Halt {
    pub line: usize,
}

// The RFC's TEXTDATA. As one pattern of three ranges it becomes branches, and import took 9 in 100 longer.
#[tactic(auto, unfolding(crate::specs::Rfc::textdata))]
fn textdata(b: u8) -> bool
    ensures { result ≡ textdata_of b }
{
    matches!(b, 0x20..=0x21) || matches!(b, 0x23..=0x2B) || matches!(b, 0x2D..=0x7E)
}

// After a byte that ends a field.
fn parting(b: u8) -> State
    ensures { result ≡ parting_of b }
{
    match b {
        COMMA => State::AtField,
        RETURN => State::AfterReturn,
        _ => State::Stopped,
    }
}

// After a byte in a field without quotes.
fn going(b: u8) -> State
    ensures { result ≡ going_of b }
{
    if textdata(b) {
        State::Plain
    } else {
        parting(b)
    }
}

// After the first byte of a field.
fn opening(b: u8) -> State
    ensures { result ≡ opening_of b }
{
    if b == QUOTE {
        State::InQuotes
    } else {
        going(b)
    }
}

// After a byte in quotes.
fn inside(b: u8) -> State
    ensures { result ≡ inside_of b }
{
    match b {
        QUOTE => State::AfterQuote,
        COMMA => State::InQuotes,
        _ if textdata(b) => State::InQuotes,
        _ => State::Stopped,
    }
}

// After a byte behind a quotation mark in quotes.
fn behind(b: u8) -> State
    ensures { result ≡ behind_of b }
{
    if b == QUOTE {
        State::InQuotes
    } else {
        parting(b)
    }
}

impl State {
    // The state of a number; one past the last stands at the start of a field.
    fn numbered(n: u8) -> State
        ensures { result ≡ state_of n }
    {
        match n {
            AT_LINE => State::AtLine,
            PLAIN => State::Plain,
            IN_QUOTES => State::InQuotes,
            AFTER_QUOTE => State::AfterQuote,
            AFTER_RETURN => State::AfterReturn,
            STOPPED => State::Stopped,
            _ => State::AtField,
        }
    }

    // The number of the state.
    fn number(self) -> u8
        ensures { result ≡ number_of self }
    {
        match self {
            State::AtLine => AT_LINE,
            State::AtField => AT_FIELD,
            State::Plain => PLAIN,
            State::InQuotes => IN_QUOTES,
            State::AfterQuote => AFTER_QUOTE,
            State::AfterReturn => AFTER_RETURN,
            State::Stopped => STOPPED,
        }
    }

    // Where a byte leads.
    #[tactic(auto, unfolding(crate::specs::Walk::next_of))]
    pub fn after(self, b: u8) -> State
        ensures { result ≡ next_of self b }
    {
        match self {
            State::AtLine | State::AtField => opening(b),
            State::Plain => going(b),
            State::InQuotes => inside(b),
            State::AfterQuote => behind(b),
            State::AfterReturn if b == FEED => State::AtLine,
            State::AfterReturn | State::Stopped => State::Stopped,
        }
    }
}

// Where a byte leads, by the numbers of the states: any number is taken.
pub fn next(st: u8, b: u8) -> u8
    ensures { result ≡ next_number st b }
{
    State::numbered(st).after(b).number()
}

// The byte stands in the sheet.
fn keeps(st: State, b: u8) -> bool
    ensures { result ≡ keeps_of st b }
{
    match b {
        RETURN => false,
        QUOTE => st == State::AfterQuote,
        _ => true,
    }
}

// The byte that stands in the sheet.
fn turned(st: State, b: u8) -> u8
    ensures { result ≡ turned_of st b }
{
    if b == COMMA && st != State::InQuotes {
        TAB
    } else {
        b
    }
}

// How many bytes a byte gives.
fn given_size(st: State, b: u8) -> usize
    ensures { result ≡ length (given_of st b) }
{
    if keeps(st, b) { 1 } else { 0 }
}

// What a byte gives, put at `at`; gives the place behind it.
fn put_given(out: &mut [u8], at: usize, st: State, b: u8) -> usize
    requires { at + length (given_of st b) ≤ length out.old }
    ensures { (out.new ≡ put out.old at (given_of st b)) × (result ≡ at + length (given_of st b)) }
{
    if !keeps(st, b) {
        return at;
    }
    out[at] = turned(st, b);
    at + 1
}

// One where a line has ended.
fn ended(st: State) -> usize
    ensures { result ≡ ended_of st }
{
    match st {
        State::AtLine => 1,
        _ => 0,
    }
}

// A text may end here.
fn may_end(st: State) -> bool
    ensures { result ≡ may_end st }
{
    !matches!(st, State::InQuotes | State::AfterReturn)
}

// Data or a comma: any printable byte but a quotation mark.
#[tactic(auto, unfolding(crate::specs::Skim::bare))]
fn is_bare(b: u8) -> bool
    ensures { result ≡ bare b }
{
    matches!(b, 0x20..=0x7E) && b != QUOTE
}

// Where the data and commas from a place on end.
fn bare_end(text: &[u8], from: usize) -> usize
    requires { from ≤ length text.now }
    ensures { result ≡ from + bare_run (drop from text.now) }
{
    for i in from..text.len() {
        if !is_bare(text[i]) {
            return i;
        }
    }
    text.len()
}

// The walk may pass over a stretch of data and commas.
fn may_skim(st: State) -> bool
    ensures { result ≡ skims st }
{
    !matches!(st, State::AfterQuote | State::AfterReturn | State::Stopped)
}

// Where the stretch ends that the walk may pass over from a place on.
fn stretch_end(st: State, text: &[u8], from: usize) -> usize
    requires { from ≤ length text.now }
    ensures { result ≡ from + skimmed st (drop from text.now) }
{
    if !may_skim(st) {
        return from;
    }
    bare_end(text, from)
}

// Where a stretch leads: in quotes it stays there, and else its last byte decides.
fn behind_stretch(st: State, stretch: &[u8]) -> State
    requires { Stretch st stretch.now }
    ensures { result ≡ led_to st stretch.now }
{
    let Some(last) = stretch.last() else {
        return st;
    };
    if st == State::InQuotes {
        return st;
    }
    State::Plain.after(*last)
}

// What a stretch gives, put from `at` on: in quotes itself, and else with its commas turned to tabs.
fn put_stretch(out: &mut [u8], at: usize, st: State, stretch: &[u8])
    requires { at + length stretch.now ≤ length out.old }
    ensures { out.new ≡ put out.old at (stretch_given st stretch.now) }
{
    if st == State::InQuotes {
        sheet::put_turned(out, at, stretch, COMMA, COMMA);
    } else {
        sheet::put_turned(out, at, stretch, COMMA, TAB);
    }
}

// A text looked through, before a byte is written: stretch by stretch, over which the place jumps, so that no `for` counts it, and each byte
// between two by a step.
pub fn scan(text: &[u8]) -> Result<Through, Halt>
    requires { length text.now ≤ 1048000 }
    ensures { Scanned text.now result }
{
    let mut st = State::AtLine;
    let mut lines = 0;
    let mut bytes = 0;
    let mut i = 0;
    while i < text.len() {
        let end = stretch_end(st, text, i);
        if i < end {
            st = behind_stretch(st, &text[i..end]);
            bytes += end - i;
            i = end;
        } else {
            let n = st.after(text[i]);
            if n == State::Stopped {
                return Err(Halt { line: lines + 1 });
            }
            bytes += given_size(st, text[i]);
            lines += ended(n);
            st = n;
            i += 1;
        }
    }
    if !may_end(st) {
        return Err(Halt { line: lines + 1 });
    }
    if st == State::AtLine {
        return Ok(Through { lines, bytes });
    }
    Ok(Through {
        lines: lines + 1,
        bytes: bytes + 1,
    })
}

// The sheet of a text that goes through, put at the front.
pub fn put_sheet(out: &mut [u8], text: &[u8])
    requires { length (sheet_from AtLine text.now) ≤ length out.old }
    ensures { out.new ≡ put out.old 0 (sheet_from AtLine text.now) }
{
    let mut st = State::AtLine;
    let mut e = 0;
    let mut i = 0;
    while i < text.len() {
        let end = stretch_end(st, text, i);
        if i < end {
            put_stretch(out, e, st, &text[i..end]);
            st = behind_stretch(st, &text[i..end]);
            e += end - i;
            i = end;
        } else {
            e = put_given(out, e, st, text[i]);
            st = st.after(text[i]);
            i += 1;
        }
    }
    if st == State::AtLine {
        return;
    }
    out[e] = FEED;
}
