// The byte that a refusal points at, shown to people: its place in decimal and hex, its record, and a mark under it.
#![tactic(auto)]

ghost use Rattle.std.specs.Prelude.{◌≡◌, map, ◌+◌, ◌≤◌, min, length, take};
ghost use Rattle.io.specs.Counts.{IsPrefixLen};
ghost use Rattle.pointing.specs.Hex.{IsHex};
ghost use Rattle.pointing.specs.Shown.{Placed, Window, column_of, mark_behind};

use place::Refusal;
use record::TAB;
use stream::{Unwritten, print, print_number};

// What is shown of a record: the bytes from `from` up to `to`, and under them a mark, with so many of them before it.
#[derive(Clone, Copy)]
struct Part {
    from: usize,
    to: usize,
    mark: usize,
}

// The bytes from `from` up to `to`, with the mark under the one at the place.
fn marked(from: usize, to: usize, place: usize) -> Part
    requires { from ≤ place }
    ensures { (result.from ≡ from) × (result.to ≡ to) × (result.from + result.mark ≡ place) }
{
    Part {
        from: from,
        to: to,
        mark: place - from,
    }
}

// The whole of a record, or of one over 64 bytes the 64 around the place.
fn window(start: usize, end: usize, place: usize) -> Part
    requires { (start ≤ place) × (place ≤ end) }
    ensures { Window start end place result.from result.to result.mark }
{
    if end - start <= 64 {
        return marked(start, end, place);
    }
    if place - start < 32 {
        return marked(start, start + 64, place);
    }
    if end - place < 32 {
        return marked(end - 64, end, place);
    }
    marked(place - 32, place + 32, place)
}

// A byte as it is shown, in one column.
#[tactic(auto, unfolding(crate::specs::Shown::column_of))]
fn column(b: u8) -> u8
    ensures { result ≡ column_of b }
{
    match b {
        TAB => b' ',
        32..=126 => b,
        _ => b'?',
    }
}

// Bytes as they are shown, at the front of a line.
fn columns(part: &[u8]) -> [u8; 64]
    requires { length part.now ≤ 64 }
    ensures { take (length part.now) result ≡ map column_of part.now }
{
    let mut line = [b' '; 64];
    for (i, b) in part.iter().enumerate() {
        line[i] = column(*b);
    }
    line
}

// The mark with n blanks before it, at the front of a line.
fn mark(n: usize) -> [u8; 65]
    requires { n ≤ 64 }
    ensures { take (n + 1) result ≡ mark_behind n }
{
    let mut line = [b' '; 65];
    line[n] = b'^';
    line
}

// Puts the hex digits of a number at the front of the lent bytes, and gives how many they are.
fn hex(n: usize, out: &mut [u8; 16]) -> usize
    ensures prefix_len { IsPrefixLen result out.new }
    ensures hex { IsHex n (take result out.new) }
{
    let k = io::hex(n as u64, 1, out);
    out.make_ascii_uppercase();
    k
}

// `Byte 78 (hex 4E)`.
fn print_place(rt: &(impl Print + Eprint), place: usize) -> Result<(), Unwritten> {
    let mut digits = [0u8; 16];
    let k = hex(place, &mut digits);
    print(rt, b"Byte ")?;
    print_number(rt, place as u64)?;
    print(rt, b" (hex ")?;
    print(rt, &digits[..k])?;
    print(rt, b")")
}

// That the place is the end of a file, or of a sheet, whose fields are parted by tabs.
fn print_end(rt: &(impl Print + Eprint), sep: u8) -> Result<(), Unwritten> {
    if sep == TAB {
        return print(rt, b", the end of the sheet.\n");
    }
    print(rt, b", the end of the file.\n")
}

// Which bytes are shown, where they are not the whole of a record of so many.
fn print_part(rt: &(impl Print + Eprint), part: Part, size: usize) -> Result<(), Unwritten>
    requires { part.to ≡ part.from + min 64 size }
{
    if size <= 64 {
        return print(rt, b":\n");
    }
    print(rt, b"; only bytes ")?;
    print_number(rt, part.from as u64)?;
    print(rt, b" to ")?;
    print_number(rt, (part.to - 1) as u64)?;
    print(rt, b" are shown:\n")
}

// Bytes on a line of their own, a column each.
fn print_columns(rt: &(impl Print + Eprint), part: &[u8]) -> Result<(), Unwritten>
    requires { length part.now ≤ 64 }
{
    let line = columns(part);
    let n = part.len();
    print(rt, &line[..n])?;
    print(rt, b"\n")
}

// The mark on a line of its own, with n blanks before it.
fn print_mark(rt: &(impl Print + Eprint), n: usize) -> Result<(), Unwritten>
    requires { n ≤ 64 }
{
    let line = mark(n);
    let width = n + 1;
    print(rt, &line[..width])?;
    print(rt, b"\n")
}

// The record from `start` up to `end`, and a mark under the byte at the place.
fn print_record(
    rt: &(impl Print + Eprint),
    s: &[u8],
    start: usize,
    end: usize,
    place: usize,
) -> Result<(), Unwritten>
    requires { (start ≤ place) × (place ≤ end) × (end ≤ length s.now) }
{
    let part = window(start, end, place);
    let from = part.from;
    let to = part.to;
    print_part(rt, part, end - start)?;
    print_columns(rt, &s[from..to])?;
    print_mark(rt, part.mark)
}

// The byte that a refusal points at, in its record; or that it is the end. Of a refusal of the whole there is nothing to show.
pub fn point(rt: &(impl Print + Eprint), sep: u8, s: &[u8], r: Refusal) -> Result<(), Unwritten>
    requires { Placed sep s.now r }
{
    if r.record == 0 {
        return Ok(());
    }
    let Some(record) = record::record_at(s, r.record) else {
        print_place(rt, r.place)?;
        return print_end(rt, sep);
    };
    print_place(rt, r.place)?;
    print_record(rt, s, record.start, record.end, r.place)
}
