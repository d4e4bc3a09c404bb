#![tactic(auto)]

ghost use Rattle.std.specs.Prelude.{◌≡◌, ◌+◌, ◌*◌, ◌/◌, ◌-◌, ◌≤◌, cond, eqb, length, take, drop};
ghost use Rattle.record.specs.Records.{run, fields};
ghost use Rattle.record.specs.Step.{Stepped, FieldStepped};
ghost use Rattle.record.specs.Found.{RecordFound, FieldFound};

// The byte that parts fields in a file, the one that parts them in a sheet, and the one that ends a record.
pub const BAR: u8 = 0x7C;

pub const TAB: u8 = 0x09;

pub const FEED: u8 = 0x0A;

// Where the first `sep` at or after `at` stands, or the end; a byte at a time, for fields, which are short.
fn find(s: &[u8], at: usize, sep: u8) -> usize
    requires { at ≤ length s.now }
    ensures { result ≡ at + run sep (drop at s.now) }
{
    for i in at..s.len() {
        if s[i] == sep {
            return i;
        }
    }
    s.len()
}

// How many of eight bytes stand before the first `sep` among them, or 8.
// A byte of `t` is 0 where `sep` stands; then a byte of `m` is 0, and any other is 0x80.
fn run_in_eight(bytes: &[u8; 8], sep: u8) -> usize
    ensures { result ≡ run sep bytes.now }
{
    let t = u64::from_le_bytes(*bytes) ^ (u64::from(sep) * 0x0101010101010101);
    let m = (((t & 0x7f7f7f7f7f7f7f7f) + 0x7f7f7f7f7f7f7f7f) | t) & 0x8080808080808080;
    ((m ^ 0x8080808080808080).trailing_zeros() / 8) as usize
}

// The same as `find`, eight bytes at a time: for records, which are long.
fn find_far(s: &[u8], at: usize, sep: u8) -> usize
    requires { at ≤ length s.now }
    ensures { result ≡ at + run sep (drop at s.now) }
{
    let mut rest = &s[at..];
    while let Some((eight, behind)) = rest.split_first_chunk::<8>() {
        let run = run_in_eight(eight, sep);
        if run < 8 {
            return s.len() - rest.len() + run;
        }
        rest = behind;
    }
    find(s, s.len() - rest.len(), sep)
}

// A part of some bytes: where it starts, and where it ends.
#[derive(Clone, Copy, PartialEq, Eq)]
pub struct Span {
    pub start: usize,
    pub end: usize,
}

impl Span {
    // The bytes of the part, which lies within `s`.
    pub fn of<'a>(self, s: &'a [u8]) -> &'a [u8]
        requires { (self.start ≤ self.end) × (self.end ≤ length s.now) }
        ensures { result.now ≡ take (self.end - self.start) (drop self.start s.now) }
    {
        &s[self.start..self.end]
    }
}

// A place in a file, from which the next record is cut. It goes by value, as document 01 has it; `RecordSpans` stands on it.
#[derive(Clone, Copy, PartialEq, Eq)]
pub struct Cursor {
    pub at: usize,
}

impl Cursor {
    // The next record of `s`, and the cursor past it and its line feed. A last line feed opens no record.
    pub fn step(self, s: &[u8]) -> Option<(Span, Cursor)>
        ensures { Stepped s.now self.at result }
    {
        let start = self.at;
        if s.len() <= start {
            return None;
        }
        let end = find_far(s, start, FEED);
        let at = if end < s.len() { end + 1 } else { end };
        Some((Span { start, end }, Cursor { at }))
    }
}

// The records of some bytes that start at a place or behind it.
#[derive(Clone, Copy)]
pub struct RecordSpans<'a> {
    pub bytes: &'a [u8],
    pub at: usize,
}

impl<'a> RecordSpans<'a> {
    // The records of a file, or of a sheet.
    pub fn of(bytes: &'a [u8]) -> Self
        ensures { (result.bytes.now ≡ bytes.now) × (result.at ≡ 0) }
    {
        RecordSpans { bytes, at: 0 }
    }
}

impl<'a> Iterator for RecordSpans<'a> {
    type Item = Span;

    ghost use Rattle.std.specs.Iterator.{at_most};
    ghost use Rattle.record.specs.Step.{RecordYielded};

    ghost next_gives = { RecordYielded };

    ghost remaining = { λ s. at_most (length s.bytes.now - s.at) };

    // The next record.
    fn next(&mut self) -> Option<Span> {
        let (record, moved) = Cursor { at: self.at }.step(self.bytes)?;
        self.at = moved.at;
        Some(record)
    }
}

// A place in a record, from which the next field is cut; past the end when none is left. It is no `Cursor` over another byte: a last
// separator opens a field, and a last line feed no record.
#[derive(Clone, Copy, PartialEq, Eq)]
pub struct FieldCursor {
    pub at: usize,
}

impl FieldCursor {
    // The next field of the record `r`, parted by `sep`, and the cursor past it and its separator. A last separator opens a field.
    pub fn step(self, sep: u8, r: &[u8]) -> Option<(Span, FieldCursor)>
        ensures { FieldStepped sep r.now self.at result }
    {
        let start = self.at;
        if r.len() < start {
            return None;
        }
        let end = find(r, start, sep);
        Some((Span { start, end }, FieldCursor { at: end + 1 }))
    }
}

// The fields of a record from the byte at a place on, parted by `sep`.
#[derive(Clone, Copy)]
pub struct FieldSpans<'a> {
    pub sep: u8,
    pub bytes: &'a [u8],
    pub at: usize,
}

impl<'a> FieldSpans<'a> {
    // The fields of a record.
    pub fn of(sep: u8, bytes: &'a [u8]) -> Self
        ensures { (result.sep ≡ sep) × (result.bytes.now ≡ bytes.now) × (result.at ≡ 0) }
    {
        FieldSpans { sep, bytes, at: 0 }
    }
}

impl<'a> Iterator for FieldSpans<'a> {
    type Item = Span;

    ghost use Rattle.std.specs.Iterator.{at_most};
    ghost use Rattle.record.specs.Step.{FieldYielded};

    ghost next_gives = { FieldYielded };

    ghost remaining = { λ s. at_most (length s.bytes.now + 1 - s.at) };

    // The next field.
    fn next(&mut self) -> Option<Span> {
        let (field, moved) = FieldCursor { at: self.at }.step(self.sep, self.bytes)?;
        self.at = moved.at;
        Some(field)
    }
}

// Record n of a file, counted from 1.
pub fn record_at(f: &[u8], n: usize) -> Option<Span>
    ensures { RecordFound f.now n result }
{
    if n == 0 {
        return None;
    }
    RecordSpans::of(f).nth(n - 1)
}

// Field k of a record whose fields are parted by `sep`, counted from 1.
pub fn field_at(sep: u8, r: &[u8], k: usize) -> Option<Span>
    ensures { FieldFound sep r.now k result }
{
    if k == 0 {
        return None;
    }
    FieldSpans::of(sep, r).nth(k - 1)
}

// How many fields the record `r` has: one more than separators.
pub fn count_fields(sep: u8, r: &[u8]) -> usize
    ensures { result ≡ length (fields sep r.now) }
{
    let mut n = 1;
    for b in r {
        n += usize::from(*b == sep);
    }
    n
}
