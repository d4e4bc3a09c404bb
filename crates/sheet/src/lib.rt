// Sheets: a file written from one, and one read from a file.
#![tactic(auto)]

ghost use Rattle.std.specs.Prelude.{◌≡◌, List, ◌++◌, ◌∷◌, [], ℕ, ◌+◌, ◌-◌, ◌≤◌, ◌<◌, length, take, drop};
ghost use Rattle.record.specs.Records.{records, turned_byte, turned, joined, holds};
ghost use Rattle.number.specs.Numbers.{decimal};
ghost use Rattle.layout.specs.Numbers.{layout_of};
ghost use Rattle.flow.specs.Editions.{asked};
ghost use Rattle.flow.specs.Proper.{ProperFooter};
ghost use Rattle.sheet.specs.Sheets.{footer as footer_of, bar_line, but_last, made};
ghost use Rattle.sheet.specs.Write.{lines_ended, written_by, Handed, Wrote};
ghost use Rattle.sheet.specs.Read.{Read};
ghost use Rattle.sheet.specs.Code.{LinesRight, MadeRight, put};

use judge::Unplaced;
use place::Refusal;
use record::{BAR, FEED, RecordSpans, TAB};

// A file or sheet handed over: so many records in so many bytes.
#[derive(Clone, Copy, PartialEq, Eq)]
pub struct Transferred {
    pub records: usize,
    pub bytes: usize,
}

// What is known of a sheet whose made file is right: that file's records and checksum.
#[derive(Clone, Copy)]
pub struct Made {
    pub records: usize,
    pub sum: u32,
}

// The byte b stands among the bytes of s.
pub fn has_byte(s: &[u8], b: u8) -> bool
    ensures { result ≡ holds b s.now }
{
    s.contains(&b)
}

// The first line of a sheet that has a bar, counted from 1; 0 where none has.
pub fn first_bar_line(sheet: &[u8]) -> usize
    ensures { result ≡ bar_line 1 (records sheet.now) }
{
    for (passed, line) in RecordSpans::of(sheet).enumerate() {
        if has_byte(line.of(sheet), BAR) {
            return passed + 1;
        }
    }
    0
}

// How many lines a sheet has.
fn line_count(sheet: &[u8]) -> usize
    ensures { result ≡ length (records sheet.now) }
{
    RecordSpans::of(sheet).count()
}

// Each line is ended by a line feed; an empty sheet has no line.
fn lines_ended(sheet: &[u8]) -> bool
    ensures { result ≡ lines_ended sheet.now }
{
    sheet.is_empty() || sheet.last() == Some(&FEED)
}

// The kind of the footer, which is the last.
fn footer_kind(t: &[u32]) -> usize
    ensures { (fixed : List ℕ) → result ≡ length (layout_of t.now fixed).rows - 1 }
{
    layout::row_count(t).saturating_sub(1)
}

// The lines of a sheet judged where they lie, and then the footer that will be added, which only the grammar can refuse.
fn judge_lines(t: &[u32], fixed: &[u8], sheet: &[u8]) -> Result<Made, Unplaced>
    requires { length sheet.now ≤ 1048000 }
    ensures { LinesRight (layout_of t.now fixed.now) sheet.now result }
{
    let class = text::class_table();
    let st = judge::judge_records(t, fixed, &class, TAB, sheet)?;
    if !layout::may_follow(t, st.last, footer_kind(t)) {
        return Err(Unplaced {
            number: 5,
            record: st.count + 1,
            field: 1,
        });
    }
    Ok(Made {
        records: st.count + 1,
        sum: st.sum,
    })
}

// A sheet by a table, up to the question of room: 2, 16, 15, then what the reader says of the made file.
fn judge_sheet(t: &[u32], fixed: &[u8], sheet: &[u8]) -> Result<Made, Unplaced>
    requires { ProperFooter (layout_of t.now fixed.now) }
    ensures { MadeRight (layout_of t.now fixed.now) sheet.now result }
{
    if 1048000 < sheet.len() {
        return Err(Unplaced {
            number: 2,
            record: 0,
            field: 0,
        });
    }
    if has_byte(sheet, BAR) {
        return Err(Unplaced {
            number: 16,
            record: first_bar_line(sheet),
            field: 0,
        });
    }
    if !lines_ended(sheet) {
        return Err(Unplaced {
            number: 15,
            record: line_count(sheet),
            field: 0,
        });
    }
    judge_lines(t, fixed, sheet)
}

// A byte, turned to another where it is this one.
fn turn(from: u8, to: u8, b: u8) -> u8
    ensures { result ≡ turned_byte from to b }
{
    if b == from { to } else { b }
}

// The bytes of s put from `at` on, each `from` turned to `to`.
pub fn put_turned(out: &mut [u8], at: usize, s: &[u8], from: u8, to: u8)
    requires { at + length s.now ≤ length out.old }
    ensures { out.new ≡ put out.old at (turned from to s.now) }
{
    for (i, b) in s.iter().enumerate() {
        out[at + i] = turn(from, to, *b);
    }
}

// How many digits a number has; the loop counts the number down, and no index.
fn digit_count(v: u64) -> usize
    ensures { (result ≡ length (decimal v)) × (result ≤ 20) }
{
    let mut rest = v;
    let mut n = 1;
    while 10 <= rest {
        rest = rest / 10;
        n += 1;
    }
    n
}

// A digit's byte.
fn digit(v: u64) -> u8
    requires { v < 10 }
    ensures { result ≡ v + 48 }
{
    v as u8 + 48
}

// The digits of a number, from the last to the first, so that they end before `end`.
fn put_decimal(out: &mut [u8], end: usize, v: u64)
    requires { (length (decimal v) ≤ end) × (end ≤ length out.old) }
    ensures { out.new ≡ put out.old (end - length (decimal v)) (decimal v) }
{
    let mut rest = v;
    let mut i = end;
    while 10 <= rest {
        i -= 1;
        out[i] = digit(rest % 10);
        rest = rest / 10;
    }
    out[i - 1] = digit(rest);
}

// How many bytes the footer of so many records with this checksum has, its line feed counted in.
fn footer_length(records: usize, sum: u32) -> usize
    ensures { (result ≡ length (footer_of records sum) + 1) × (result ≤ 46) }
{
    digit_count(records as u64) + digit_count(sum as u64) + 6
}

// The footer of so many records with this checksum, and its line feed, from `at` on.
fn put_footer(out: &mut [u8], at: usize, records: usize, sum: u32)
    requires { at + length (footer_of records sum) + 1 ≤ length out.old }
    ensures { out.new ≡ put out.old at (footer_of records sum ++ 0x0A ∷ []) }
{
    let count = records as u64;
    let total = sum as u64;
    let bar = at + 4 + digit_count(count);
    let end = bar + 1 + digit_count(total);
    out[at..at + 4].copy_from_slice(b"ZPT|");
    put_decimal(out, bar, count);
    out[bar] = BAR;
    put_decimal(out, end, total);
    out[end] = FEED;
}

// Where the last record of a file starts. The last byte is its line feed, or stands in it.
pub fn last_start(f: &[u8]) -> usize
    ensures { (result ≤ length f.now) × (joined (but_last (records f.now)) ≡ take result f.now) }
{
    if f.is_empty() {
        return 0;
    }
    for i in (0..f.len() - 1).rev() {
        if f[i] == FEED {
            return i + 1;
        }
    }
    0
}

// Writes the file of a sheet by a table into the lent bytes.
fn write_by(t: &[u32], fixed: &[u8], sheet: &[u8], out: &mut [u8]) -> Result<Transferred, Refusal>
    requires { ProperFooter (layout_of t.now fixed.now) }
    ensures { Handed (written_by (layout_of t.now fixed.now) sheet.now (length out.old)) (made sheet.now) result out.old out.new }
{
    let judged = judge_sheet(t, fixed, sheet);
    let made = judged.map_err(|r| place::at(TAB, sheet, r.number, r.record, r.field))?;
    let records = made.records;
    let at = sheet.len();
    let bytes = at + footer_length(records, made.sum);
    if out.len() < bytes {
        return Err(place::whole(17));
    }
    put_turned(out, 0, sheet, TAB, BAR);
    put_footer(out, at, records, made.sum);
    Ok(Transferred { records, bytes })
}

// Writes the file of a sheet for the flow that the words ask for into the lent bytes. Any words, any bytes, any room.
pub fn write(flow: &[u8], sheet: &[u8], out: &mut [u8]) -> Result<Transferred, Refusal>
    ensures { Wrote (asked flow.now) sheet.now result out.old out.new }
{
    let table = flow::table_of(flow::find(flow)?);
    write_by(&table.numbers, &table.fixed, sheet, out)
}

// Reads a file for the flow that the words ask for to a sheet in the lent bytes. Any words, any bytes, any room.
pub fn read(flow: &[u8], file: &[u8], out: &mut [u8]) -> Result<Transferred, Refusal>
    ensures { Read (asked flow.now) file.now result out.old out.new }
{
    let records = judge::judge(flow, file)?;
    let end = last_start(file);
    if out.len() < end {
        return Err(place::whole(17));
    }
    put_turned(out, 0, &file[..end], BAR, TAB);
    Ok(Transferred {
        records,
        bytes: end,
    })
}
