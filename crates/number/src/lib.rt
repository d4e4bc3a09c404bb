// Digits, signs and the numbers that they spell; the calendar.
#![tactic(auto)]

ghost use Rattle.std.specs.Prelude.{◌≡◌, ◌<◌, ◌≤◌, ◌^◌, ◌+◌, ◌*◌, length};
ghost use Rattle.text.specs.Characters.{all, is_digit};
ghost use Rattle.number.specs.Numbers.{minus as minus_of, unsigned as unsigned_of, is_zero, signed as signed_of, spelled};
ghost use Rattle.number.specs.Calendar.{leap, days_in, is_day, is_date, is_time};
ghost use Rattle.number.specs.Order.{digits_order, whole_order};
ghost use Rattle.number.specs.Leaves.{leads, spelt_from};

use std::cmp::Ordering;

// Each byte is a digit.
pub fn all_digits(s: &[u8]) -> bool
    ensures { result ≡ all is_digit s.now }
{
    s.iter().all(|b| b.is_ascii_digit())
}

// Digits tested and read in one pass, after digits that spell `v`. Each byte leaves its mark in `marks`, which is
// tested once: 303 - b is below 256 from 48 on, and b + 198 up to 57. A byte's last four bits are its digit.
pub fn read_digits(v: u64, d: &[u8]) -> Option<u64>
    requires { (v + 2) * 10 ^ length d.now ≤ 2 * 10 ^ 18 }
    ensures { result ≡ spelt_from v d.now }
{
    let mut n = v;
    let mut marks: u64 = 0;
    for byte in d {
        let b = u64::from(*byte);
        marks = marks | (303 - b) | (b + 198);
        n = n * 10 + b % 16;
    }
    if 256 <= marks {
        return None;
    }
    Some(n)
}

// The first byte is a minus.
#[tactic(auto, unfolding(crate::specs::Numbers::minus))]
pub fn minus(s: &[u8]) -> bool
    ensures { result ≡ minus_of s.now }
{
    matches!(s, [b'-', ..])
}

// The bytes after the minus, if there is one.
#[tactic(auto, unfolding(crate::specs::Numbers::minus, crate::specs::Numbers::unsigned))]
pub fn unsigned<'a>(s: &'a [u8]) -> &'a [u8]
    ensures { result.now ≡ unsigned_of s.now }
{
    match s {
        [b'-', digits @ ..] => digits,
        _ => s,
    }
}

// One byte or more, and no zero before another.
pub fn leads_right(d: &[u8]) -> bool
    ensures { result ≡ leads d.now }
{
    match d {
        [] => false,
        [_] => true,
        [first, ..] => *first != b'0',
    }
}

// A magnitude with its sign; within 63 bits the negation cannot wrap.
pub fn signed(below: bool, v: u64) -> i64
    requires { v < 2 ^ 63 }
    ensures { result ≡ signed_of below v }
{
    let x = v as i64;
    if below { 0 - x } else { x }
}

// Each byte is the digit 0.
pub fn all_zero(s: &[u8]) -> bool
    ensures { result ≡ all is_zero s.now }
{
    s.iter().all(|b| *b == b'0')
}

// The bytes are the one spelling of v, in at most 10 digits.
#[tactic(auto, using(crate::proofs::OnePass::spelled_is))]
pub fn spells(s: &[u8], v: u64) -> bool
    ensures { result ≡ spelled v s.now }
{
    s.len() <= 10 && leads_right(s) && read_digits(0, s) == Some(v)
}

// Two numbers without sign and leading zero: more digits is above.
#[tactic(auto, unfolding(crate::specs::Order::digits_order, text::specs::Order::number_order))]
pub fn digits_order(a: &[u8], b: &[u8]) -> Ordering
    ensures { result ≡ digits_order a.now b.now }
{
    match a.len().cmp(&b.len()) {
        Ordering::Equal => text::text_order(a, b),
        other => other,
    }
}

// Two numbers that may have a sign: those below zero stand below, and the other way round among themselves.
#[tactic(auto, unfolding(crate::specs::Order::whole_order, crate::specs::Numbers::minus, crate::specs::Numbers::unsigned))]
pub fn whole_order(a: &[u8], b: &[u8]) -> Ordering
    ensures { result ≡ whole_order a.now b.now }
{
    match (a, b) {
        ([b'-', a_digits @ ..], [b'-', b_digits @ ..]) => digits_order(b_digits, a_digits),
        ([b'-', ..], _) => Ordering::Less,
        (_, [b'-', ..]) => Ordering::Greater,
        _ => digits_order(a, b),
    }
}

// Each fourth year but each hundredth, and each four hundredth after all.
#[tactic(auto, unfolding(crate::specs::Calendar::leap))]
pub fn is_leap(y: u64) -> bool
    ensures { result ≡ leap y }
{
    y % 4 == 0 && (y % 100 != 0 || y % 400 == 0)
}

// February has 28 days, 29 in a leap year; April, June, September and November 30; the others 31.
#[tactic(auto, unfolding(crate::specs::Calendar::days_in))]
pub fn days_in(y: u64, m: u64) -> u64
    ensures { result ≡ days_in y m }
{
    match m {
        2 => { if is_leap(y) { 29 } else { 28 } }
        4 | 6 | 9 | 11 => 30,
        _ => 31,
    }
}

// Day d of month m of year y is in the calendar.
#[tactic(auto, unfolding(crate::specs::Calendar::is_day))]
pub fn is_day(y: u64, m: u64, d: u64) -> bool
    ensures { result ≡ is_day y m d }
{
    1 <= y && y <= 9999 && 1 <= m && m <= 12 && 1 <= d && d <= days_in(y, m)
}

// YYYYMMDD as one number.
#[tactic(auto, unfolding(crate::specs::Calendar::is_date))]
pub fn is_date(v: u64) -> bool
    ensures { result ≡ is_date v }
{
    is_day(v / 10000, v / 100 % 100, v % 100)
}

// hhmmss as one number.
#[tactic(auto, unfolding(crate::specs::Calendar::is_time))]
pub fn is_time(v: u64) -> bool
    ensures { result ≡ is_time v }
{
    v / 10000 <= 23 && v / 100 % 100 <= 59 && v % 100 <= 59
}
