// Lines of words parted by tabs on standard output, each made in one piece and written by one call.
#![tactic(auto)]

ghost use Rattle.std.specs.Prelude.{◌≡◌, ◌≤◌, nat_abs};

use place::Refusal;
pub use stream::Unwritten;
use stream::{Line, print};

// Writes a line of a short word and at most five numbers.
pub fn print_numbers(
    rt: &(impl Print + Eprint),
    word: &[u8],
    numbers: &[usize],
) -> Result<(), Unwritten> {
    let mut line = Line::<128>::new();
    line.put(word);
    for n in numbers {
        line.put_number(*n);
    }
    line.put(b"\n");
    print(rt, line.as_bytes())
}

// Writes a line of numbers alone, at most six.
pub fn print_row(
    rt: &(impl Print + Eprint),
    first: usize,
    others: &[usize],
) -> Result<(), Unwritten> {
    let mut digits = [0u8; 20];
    let k = io::decimal(first as u64, &mut digits);
    print_numbers(rt, &digits[..k], others)
}

// Writes the line of a file that is accepted.
pub fn print_accepted(rt: &(impl Print + Eprint), records: usize) -> Result<(), Unwritten> {
    print_numbers(rt, b"ok", &[0, records, 0, 0])
}

// Writes the line of a refusal.
pub fn print_refusal(rt: &(impl Print + Eprint), r: Refusal) -> Result<(), Unwritten> {
    print_numbers(rt, b"refused", &[r.number, r.record, r.field, r.place])
}

// Writes the line of what is said of a file.
pub fn print_judged(
    rt: &(impl Print + Eprint),
    judged: Result<usize, Refusal>,
) -> Result<(), Unwritten> {
    match judged {
        Ok(records) => print_accepted(rt, records),
        Err(refusal) => print_refusal(rt, refusal),
    }
}

// Writes a line of `ok`, 0, the kind of a value and the value, which has at most 512 bytes.
pub fn print_value(rt: &(impl Print + Eprint), kind: &[u8], value: &[u8]) -> Result<(), Unwritten> {
    let mut line = Line::<640>::new();
    line.put(b"ok\t0\t");
    line.put(kind);
    line.put(b"\t");
    line.put(value);
    line.put(b"\n");
    print(rt, line.as_bytes())
}

// Writes the line of a value that is a truth, as T or F.
pub fn print_truth(rt: &(impl Print + Eprint), truth: bool) -> Result<(), Unwritten> {
    if truth {
        print_value(rt, b"truth", b"T")
    } else {
        print_value(rt, b"truth", b"F")
    }
}

// Writes the line of the kinds that may follow, whose names stand at the front of the bytes, three bytes each.
pub fn print_follow(
    rt: &(impl Print + Eprint),
    count: usize,
    complete: bool,
    follow: &[u8; 96],
) -> Result<(), Unwritten>
    requires { count ≤ 32 }
{
    let names = text::part(follow, 0, 3 * count);
    if complete {
        print_value(rt, b"complete", names)
    } else {
        print_value(rt, b"open", names)
    }
}

// The size of a whole number; below zero it is one more than that of the flipped bits.
fn size(n: i64) -> u64
    ensures { result ≡ nat_abs n }
{
    if n < 0 {
        return (!n) as u64 + 1;
    }
    n as u64
}

// Writes the line of a value that is a whole number.
pub fn print_whole(rt: &(impl Print + Eprint), n: i64) -> Result<(), Unwritten> {
    let mut digits = [0u8; 20];
    let k = io::decimal(size(n), &mut digits);
    let mut value = Line::<21>::new();
    if n < 0 {
        value.put(b"-");
    }
    value.put(&digits[..k]);
    print_value(rt, b"number", value.as_bytes())
}
