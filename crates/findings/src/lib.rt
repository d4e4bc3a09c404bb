// What a sentence on a refusal names, found in the bytes that are refused, and which refusals there are. In a file bars part
// the fields, in a sheet tabs.
#![tactic(auto)]

ghost use Rattle.std.specs.Prelude.{◌≡◌, ℕ, ◌+◌, List, length};
ghost use Rattle.text.specs.Characters.{from_to};
ghost use Rattle.record.specs.Records.{field};
ghost use Rattle.layout.specs.Layout.{row};
ghost use Rattle.layout.specs.Numbers.{layout_of};
ghost use Rattle.fault.specs.Record.{kind_of};
ghost use Rattle.findings.specs.Dates.{missing_in};
ghost use Rattle.findings.specs.Words.{refused_part};
ghost use Rattle.findings.specs.Lines.{footer_line, with_one, last_of_kind, records_before};

use place::Refusal;
use record::{FEED, RecordSpans};

// A part of a date.
#[derive(Clone, Copy, Debug, PartialEq, Eq)]
pub enum Part {
    Year,
    Month,
    Day,
}

// The first part of YYYYMMDD, as one number, that the calendar does not have.
pub fn missing_in(v: u64) -> Option<Part>
    ensures { result ≡ missing_in v }
{
    if !number::is_day(v / 10000, 1, 1) {
        return Some(Part::Year);
    }
    if !number::is_day(v / 10000, v / 100 % 100, 1) {
        return Some(Part::Month);
    }
    if !number::is_date(v) {
        return Some(Part::Day);
    }
    None
}

// The bytes of the field that a refusal names.
pub fn field_refused<'a>(sep: u8, file: &'a [u8], r: Refusal) -> &'a [u8]
    ensures { result.now ≡ field sep r.field (field 10 r.record file.now) }
{
    words::part(sep, words::part(FEED, file, r.record), r.field)
}

// The kind of line n of a file or a sheet; 0, the start, where there is no such line or kind.
pub fn kind_at(t: &[u32], sep: u8, file: &[u8], n: usize) -> usize
    ensures { (fixed : List ℕ) → result ≡ kind_of sep (layout_of t.now fixed) (field 10 n file.now) }
{
    fault::kind_of(t, sep, words::part(FEED, file, n))
}

// Line n of a sheet is a ZPT line.
pub fn is_footer_line(t: &[u32], sep: u8, sheet: &[u8], n: usize) -> bool
    ensures { (fixed : List ℕ) → result ≡ footer_line sep (layout_of t.now fixed) sheet.now n }
{
    layout::is_footer(t, kind_at(t, sep, sheet, n))
}

// The record where it is of the kind, and else the last one before it that was.
fn with_one<'a>(t: &[u32], sep: u8, kind: usize, last: &'a [u8], found: &'a [u8]) -> &'a [u8]
    ensures { (fixed : List ℕ) → result.now ≡ with_one sep (layout_of t.now fixed) kind last.now found.now }
{
    if fault::kind_of(t, sep, found) == kind {
        return found;
    }
    last
}

// The last record of a kind before record n; no bytes where there is none.
pub fn last_of_kind<'a>(t: &[u32], sep: u8, kind: usize, file: &'a [u8], n: usize) -> &'a [u8]
    ensures { (fixed : List ℕ) → result.now ≡ last_of_kind sep (layout_of t.now fixed) kind (records_before file.now n) }
{
    let mut last: &[u8] = &[];
    for record in RecordSpans::of(file).take(n.saturating_sub(1)) {
        last = with_one(t, sep, kind, last, record.of(file));
    }
    last
}

// The part of a caller's words that is refused with a number: by 22 the flow, in eight characters, by 21 the edition, behind them and the
// space, by 1 all of the words.
pub fn refused_part<'a>(words: &'a [u8], number: usize) -> &'a [u8]
    ensures { result.now ≡ refused_part words.now number }
{
    match number {
        21 => text::part(words, 9, words.len()),
        22 => text::part(words, 0, 8),
        _ => words,
    }
}

// How many fields a kind has, its name among them.
pub fn field_count(t: &[u32], kind: usize) -> usize
    ensures { (fixed : List ℕ) → result ≡ length (row (layout_of t.now fixed) kind).rules + 1 }
{
    let rules = layout::rules_of(t, kind);
    rules.count + 1
}

// The greatest refusal.
const LAST: usize = 22;

// There is a refusal n.
pub fn is_refusal(n: usize) -> bool
    ensures { result ≡ from_to 1 22 n }
{
    (1..=LAST).contains(&n)
}
