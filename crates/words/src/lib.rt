// The words that people write: one of several, a number, a type in document 01's spelling, a mark.
#![tactic(auto)]

ghost use Rattle.std.specs.Prelude.{◌≡◌, ◌+◌, ◌*◌, ◌-◌, true, false, leb, Some, MatchOption};
ghost use Rattle.text.specs.Characters.{is_digit};
ghost use Rattle.record.specs.Records.{field};
ghost use Rattle.words.specs.Spelling.{number_of, width_of, dec_of, ends_in, bracketed, inside as inside_of, wide_of, form_of, mark_of};

use field::{FieldType, Mark};

// Part k of some bytes parted by `sep`, counted from 1; no bytes where there is none.
pub fn part<'a>(sep: u8, s: &'a [u8], k: usize) -> &'a [u8]
    ensures { result.now ≡ field sep k s.now }
{
    match record::field_at(sep, s, k) {
        Some(found) => found.of(s),
        None => &s[..0],
    }
}

// What a byte counts as a digit, where it is one.
#[tactic(auto, unfolding(text::specs::Characters::is_digit))]
fn digit_of(b: u8) -> Option<usize>
    ensures { MatchOption result (is_digit b ≡ false) (λ d. (is_digit b ≡ true) × (d ≡ b - 48)) }
{
    match b {
        b'0'..=b'9' => Some(usize::from(b - b'0')),
        _ => None,
    }
}

// A number with one digit more is not above the limit. It is not built to see it: it may have no room.
fn in_limit(n: usize, d: usize, limit: usize) -> bool
    ensures { result ≡ leb (n * 10 + d) limit }
{
    n <= limit / 10 && d <= limit - n * 10
}

// A number of one to `most` digits, not above the limit.
pub fn read_number(s: &[u8], most: usize, limit: usize) -> Option<usize>
    ensures { result ≡ number_of most limit s.now }
{
    if s.is_empty() {
        return None;
    }
    if most < s.len() {
        return None;
    }
    let mut n: usize = 0;
    for b in s {
        let d = digit_of(*b)?;
        if !in_limit(n, d, limit) {
            return None;
        }
        n = n * 10 + d;
    }
    Some(n)
}

// A width of a type.
fn read_width(s: &[u8]) -> Option<usize>
    ensures { result ≡ width_of s.now }
{
    read_number(s, 9, 999999999)
}

// Width k of those parted by commas.
fn dec_width(widths: &[u8], k: usize) -> Option<usize>
    ensures { result ≡ width_of (field 0x2C k widths.now) }
{
    read_width(part(b',', widths, k))
}

// A dec by its two widths.
#[tactic(auto, unfolding(crate::specs::Spelling::dec_of))]
fn read_dec(widths: &[u8]) -> Option<FieldType>
    ensures { result ≡ dec_of widths.now }
{
    if record::count_fields(b',', widths) != 2 {
        return None;
    }
    let p = dec_width(widths, 1)?;
    let q = dec_width(widths, 2)?;
    Some(FieldType::Dec(p, q))
}

// There is a last byte, and it is b.
#[tactic(auto, unfolding(crate::specs::Spelling::ends_in))]
pub fn ends_in(b: u8, s: &[u8]) -> bool
    ensures { result ≡ ends_in b s.now }
{
    s.last() == Some(&b)
}

// What stands in the brackets behind a name, in a word of this form.
fn inside<'a>(name: &[u8], s: &'a [u8]) -> Option<&'a [u8]>
    requires { ends_in 0x29 name.now ≡ false }
    ensures { MatchOption result (bracketed name.now s.now ≡ false) (λ i. (bracketed name.now s.now ≡ true) × (i.now ≡ inside_of name.now s.now)) }
{
    s.strip_prefix(name)?.strip_suffix(b")")
}

// A type with widths.
#[tactic(auto, unfolding(crate::specs::Spelling::wide_of, crate::specs::Spelling::ends_in))]
fn read_wide(s: &[u8]) -> Option<FieldType>
    ensures { result ≡ wide_of s.now }
{
    if let Some(width) = inside(b"text(", s) {
        return read_width(width).map(FieldType::Text);
    }
    if let Some(width) = inside(b"int(", s) {
        return read_width(width).map(FieldType::Int);
    }
    read_dec(inside(b"dec(", s)?)
}

// A type of one word, without widths.
#[tactic(auto, using(crate::proofs::Bytewise::by_bytes), unfolding(crate::specs::Spelling::form_of))]
fn read_bare(s: &[u8]) -> Option<FieldType>
    ensures { MatchOption result (form_of s.now ≡ wide_of s.now) (λ form. form_of s.now ≡ Some form) }
{
    match s {
        b"date" => Some(FieldType::Date),
        b"datetime" => Some(FieldType::Datetime),
        b"bol" => Some(FieldType::Bol),
        b"period" => Some(FieldType::Period),
        b"null" => Some(FieldType::Null),
        _ => None,
    }
}

// A type in document 01's spelling.
pub fn read_form(s: &[u8]) -> Option<FieldType>
    ensures { result ≡ form_of s.now }
{
    read_bare(s).or_else(|| read_wide(s))
}

// A mark: `-` for none, `opt`, and `=` for a fixed value.
#[tactic(auto, using(crate::proofs::Bytewise::by_bytes), unfolding(crate::specs::Spelling::mark_of))]
pub fn read_mark(s: &[u8]) -> Option<Mark>
    ensures { result ≡ mark_of s.now }
{
    match s {
        b"-" => Some(Mark::Bare),
        b"opt" => Some(Mark::Opt),
        b"=" => Some(Mark::Fixed),
        _ => None,
    }
}
