// The checksum of records, as the footer has it.
#![tactic(auto)]

ghost use Rattle.std.specs.Prelude.{◌≡◌, ◌<◌, length, get_or};
ghost use Rattle.record.specs.Records.{bar, barred, turned_byte};
ghost use Rattle.checksum.specs.Checksum.{word, add_record, checksum_of};

use record::{BAR, RecordSpans};

// Four bytes joined, first byte highest.
fn join(a: u8, b: u8, c: u8, d: u8) -> u32
    ensures { result ≡ word a b c d }
{
    u32::from_be_bytes([a, b, c, d])
}

// A byte, with `sep` counted as a bar.
fn barred_byte(sep: u8, b: u8) -> u8
    ensures { result ≡ turned_byte sep bar b }
{
    if b == sep { BAR } else { b }
}

// The byte at `i` so, or a zero byte past the end.
fn filled(sep: u8, s: &[u8], i: usize) -> u8
    ensures { result ≡ get_or (barred sep s.now) i 0 }
{
    if i < s.len() {
        barred_byte(sep, s[i])
    } else {
        0
    }
}

// The running checksum with what is left of a record, fewer than four bytes.
fn add_tail(sum: u32, sep: u8, left: &[u8]) -> u32
    requires { length left.now < 4 }
    ensures { result ≡ add_record sum (barred sep left.now) }
{
    if left.is_empty() {
        return sum;
    }
    let a = filled(sep, left, 0);
    let b = filled(sep, left, 1);
    let c = filled(sep, left, 2);
    sum ^ join(a, b, c, 0)
}

// The running checksum with one record more.
pub fn add_record(sum: u32, part: &[u8]) -> u32
    ensures { result ≡ add_record sum part.now }
{
    let mut t = sum;
    let mut rest = part;
    while let Some((piece, left)) = rest.split_first_chunk::<4>() {
        let [a, b, c, d] = *piece;
        t ^= join(a, b, c, d);
        rest = left;
    }
    add_tail(t, BAR, rest)
}

// The running checksum with one line more, its separators counted as bars.
pub fn add_line(sum: u32, sep: u8, part: &[u8]) -> u32
    ensures { result ≡ add_record sum (barred sep part.now) }
{
    if sep == BAR {
        return add_record(sum, part);
    }
    let mut t = sum;
    let mut rest = part;
    while let Some((piece, left)) = rest.split_first_chunk::<4>() {
        let [a, b, c, d] = *piece;
        t ^= join(
            barred_byte(sep, a),
            barred_byte(sep, b),
            barred_byte(sep, c),
            barred_byte(sep, d),
        );
        rest = left;
    }
    add_tail(t, sep, rest)
}

// The checksum of bytes: of every record in them, of any kind.
pub fn of_bytes(s: &[u8]) -> u32
    ensures { result ≡ checksum_of s.now }
{
    let mut sum = 0;
    for record in RecordSpans::of(s) {
        sum = add_record(sum, record.of(s));
    }
    sum
}
