// One field's bytes judged against a type and its mark.
#![tactic(auto)]

ghost use Rattle.std.specs.Prelude.{◌≡◌, ◌&&◌, [], ◌<◌, ◌≤◌, ◌^◌, ◌+◌, ◌*◌, pos, length, Ok, Err};
ghost use Rattle.text.specs.Rules.{must};
ghost use Rattle.text.specs.Characters.{all, is_digit, from_to, IsClassTable};
ghost use Rattle.field.specs.Types.{Sound, width_right, is_null};
ghost use Rattle.field.specs.Judge.{bare, marked, may_be_empty, meets_mark, filled, field_answer, field_judged, paper, number_of};
ghost use Rattle.field.specs.Leaves.{digits_answer, int_answer, negative_zero, dec_answer, pointed_answer, moment, moment_digits, in_calendar, moment_answer};
ghost use Rattle.field.specs.Keys.{by_bytes, key_order};
ghost use Rattle.field.specs.declared.FieldType.TheVariants as types;
ghost use Rattle.field.specs.declared.Content.TheVariants as contents;
ghost use Rattle.field.specs.declared.Wrong.TheVariants as wrongs;

use std::cmp::Ordering;

// The types of fields, with their widths.
#[derive(Clone, Copy)]
pub enum FieldType {
    Text(usize),
    Int(usize),
    Dec(usize, usize),
    Date,
    Datetime,
    Bol,
    Period,
    Null,
}

// What stands beside a type; the bytes of a fixed value are lent beside it.
#[derive(Clone, Copy)]
pub enum Mark {
    Bare,
    Opt,
    Fixed,
}

// What a field that passes holds; the value Text is the field's own bytes.
#[derive(Clone, Copy, PartialEq, Eq, Debug)]
pub enum Content {
    Empty,
    Number(i64),
    Truth(bool),
    Text,
}

// Why a field is refused: it is empty, of a wrong form, out of range, not what its mark or null fixes, or its type has no such width.
#[derive(Clone, Copy, PartialEq, Eq, Debug)]
pub enum Wrong {
    Missing,
    Form,
    Range,
    Fixed,
    Width,
}

impl Wrong {
    // The number of the refusal.
    pub fn number(self) -> u8
        ensures { result ≡ number_of self }
    {
        match self {
            Wrong::Missing => 7,
            Wrong::Form => 8,
            Wrong::Range => 9,
            Wrong::Fixed => 10,
            Wrong::Width => 18,
        }
    }
}

// Digits after digits that spell `v`, with their sign.
#[tactic(auto, using(number::proofs::OnePass::spelling))]
fn signed_digits(below: bool, v: u64, d: &[u8]) -> Result<Content, Wrong>
    requires { (v + 2) * 10 ^ length d.now ≤ 2 * 10 ^ 18 }
    ensures { result ≡ digits_answer below v d.now }
{
    let Some(n) = number::read_digits(v, d) else {
        return Err(Wrong::Form);
    };
    Ok(Content::Number(number::signed(below, n)))
}

// Too many bytes: the range is wrong, but the form comes first.
fn too_long(d: &[u8]) -> Wrong
    ensures { result ≡ must (all is_digit d.now) wrongs.Form wrongs.Range }
{
    if number::all_digits(d) {
        return Wrong::Range;
    }
    Wrong::Form
}

// The bytes of an int, its minus taken off, by its sign: at most n digits.
#[tactic(auto, using(crate::proofs::Filled::int_cases, number::proofs::OnePass::room_18), unfolding(crate::specs::Leaves::int_answer, number::specs::Numbers::plain))]
fn int_of(below: bool, d: &[u8], n: usize) -> Result<Content, Wrong>
    requires { n ≤ 18 }
    ensures { result ≡ int_answer below n d.now }
{
    if !number::leads_right(d) {
        return Err(Wrong::Form);
    }
    if below && d[0] == b'0' {
        return Err(Wrong::Form);
    }
    if n < d.len() {
        return Err(too_long(d));
    }
    signed_digits(below, 0, d)
}

// An int by its sign.
#[tactic(auto, using(crate::proofs::Filled::int_is))]
pub fn judge_int(s: &[u8], n: usize) -> Result<Content, Wrong>
    requires { n ≤ 18 }
    ensures { result ≡ filled (types.Int n) bare s.now }
{
    int_of(number::minus(s), number::unsigned(s), n)
}

// A minus before nothing but zeros.
#[tactic(auto, unfolding(crate::specs::Leaves::negative_zero))]
fn negative_zero(below: bool, whole: &[u8], places: &[u8]) -> bool
    ensures { result ≡ negative_zero below whole.now places.now }
{
    below && number::all_zero(whole) && number::all_zero(places)
}

// Too many bytes before and after the point: as too_long.
fn both_too_long(whole: &[u8], places: &[u8]) -> Wrong
    ensures { result ≡ must (all is_digit whole.now && all is_digit places.now) wrongs.Form wrongs.Range }
{
    if !number::all_digits(whole) {
        return Wrong::Form;
    }
    too_long(places)
}

// The digits of a dec before its point and those after it, at most p in all.
#[tactic(auto, using(crate::proofs::Filled::dec_cases, number::proofs::OnePass::spelling), unfolding(crate::specs::Leaves::dec_answer, number::specs::Numbers::plain))]
fn dec_parts(below: bool, whole: &[u8], places: &[u8], p: usize) -> Result<Content, Wrong>
    requires { p ≤ 18 }
    ensures { result ≡ dec_answer below p whole.now places.now }
{
    if !number::leads_right(whole) {
        return Err(Wrong::Form);
    }
    if negative_zero(below, whole, places) {
        return Err(Wrong::Form);
    }
    if p < whole.len() + places.len() {
        return Err(both_too_long(whole, places));
    }
    let Some(v) = number::read_digits(0, whole) else {
        return Err(Wrong::Form);
    };
    signed_digits(below, v, places)
}

// The bytes of a dec, its minus taken off, by its sign: a point before the last q.
#[tactic(auto, using(text::proofs::Lists::rest), unfolding(crate::specs::Leaves::pointed_answer))]
fn dec_of(below: bool, d: &[u8], p: usize, q: usize) -> Result<Content, Wrong>
    requires { p ≤ 18 }
    ensures { result ≡ pointed_answer below p q d.now }
{
    if d.len() <= q {
        return Err(Wrong::Form);
    }
    let e = d.len() - q;
    let point = e - 1;
    if d[point] != b'.' {
        return Err(Wrong::Form);
    }
    dec_parts(below, &d[..point], &d[e..], p)
}

// A dec by its sign.
#[tactic(auto, using(crate::proofs::Filled::dec_is))]
pub fn judge_dec(s: &[u8], p: usize, q: usize) -> Result<Content, Wrong>
    requires { p ≤ 18 }
    ensures { result ≡ filled (types.Dec p q) bare s.now }
{
    dec_of(number::minus(s), number::unsigned(s), p, q)
}

// A day of the calendar, or that and a time of the day behind it.
fn in_calendar(timed: bool, v: u64) -> bool
    ensures { result ≡ in_calendar timed v }
{
    if timed {
        number::is_date(v / 1000000) && number::is_time(v % 1000000)
    } else {
        number::is_date(v)
    }
}

// The digits of a moment as one number.
fn moment_answer(timed: bool, v: u64) -> Result<Content, Wrong>
    requires { v < 2 ^ 63 }
    ensures { result ≡ moment_answer timed v }
{
    if !in_calendar(timed, v) {
        return Err(Wrong::Range);
    }
    Ok(Content::Number(number::signed(false, v)))
}

// A moment is so many digits, then what the calendar has.
#[tactic(auto, using(crate::proofs::Filled::moment_is, number::proofs::OnePass::spelling))]
fn judge_moment(timed: bool, s: &[u8]) -> Result<Content, Wrong>
    ensures { result ≡ filled (moment timed) bare s.now }
{
    let digits = if timed { 14 } else { 8 };
    if s.len() != digits {
        return Err(Wrong::Form);
    }
    let Some(v) = number::read_digits(0, s) else {
        return Err(Wrong::Form);
    };
    moment_answer(timed, v)
}

// A date is 8 digits, then a day of the calendar.
pub fn judge_date(s: &[u8]) -> Result<Content, Wrong>
    ensures { result ≡ filled types.Date bare s.now }
{
    judge_moment(false, s)
}

// A datetime is 14 digits, then a day of the calendar and a time of the day.
pub fn judge_datetime(s: &[u8]) -> Result<Content, Wrong>
    ensures { result ≡ filled types.Datetime bare s.now }
{
    judge_moment(true, s)
}

// T or F.
#[tactic(auto, unfolding(crate::specs::Judge::filled, crate::specs::Types::form, crate::specs::Types::range, crate::specs::Types::value_of, crate::specs::Types::bol_form))]
pub fn judge_bol(s: &[u8]) -> Result<Content, Wrong>
    ensures { result ≡ filled types.Bol bare s.now }
{
    match s {
        b"T" => Ok(Content::Truth(true)),
        b"F" => Ok(Content::Truth(false)),
        _ => Err(Wrong::Form),
    }
}

// Periods are 1 to 50.
fn period_answer(v: u64) -> Result<Content, Wrong>
    ensures { result ≡ must (from_to 1 50 v) (Err wrongs.Range) (Ok (contents.Number (pos v))) }
{
    if !(1..=50).contains(&v) {
        return Err(Wrong::Range);
    }
    Ok(Content::Number(number::signed(false, v)))
}

// An int first; one below zero is out of range like one of too many digits.
#[tactic(auto, using(crate::proofs::Filled::period_cases, number::proofs::OnePass::spelling))]
pub fn judge_period(s: &[u8]) -> Result<Content, Wrong>
    ensures { result ≡ filled types.Period bare s.now }
{
    if number::minus(s) {
        return int_of(true, number::unsigned(s), 0);
    }
    if !number::leads_right(s) {
        return Err(Wrong::Form);
    }
    if 2 < s.len() {
        return Err(too_long(s));
    }
    let Some(v) = number::read_digits(0, s) else {
        return Err(Wrong::Form);
    };
    period_answer(v)
}

// A null field is never filled.
#[tactic(auto, unfolding(crate::specs::Judge::filled, crate::specs::Types::form, crate::specs::Types::range, crate::specs::Types::value_of))]
fn judge_null(s: &[u8]) -> Result<Content, Wrong>
    ensures { result ≡ filled types.Null bare s.now }
{
    if !s.is_empty() {
        return Err(Wrong::Form);
    }
    Ok(Content::Empty)
}

// No space at either end, listed characters, at most n of them.
#[tactic(auto, unfolding(crate::specs::Judge::filled, crate::specs::Types::form, crate::specs::Types::range, crate::specs::Types::value_of, crate::specs::Types::text_form))]
pub fn judge_text(class: &[u8; 256], s: &[u8], n: usize) -> Result<Content, Wrong>
    requires { IsClassTable class.now }
    ensures { result ≡ filled (types.Text n) bare s.now }
{
    if s.is_empty() {
        return Ok(Content::Text);
    }
    if matches!(s, [b' ', ..] | [.., b' ']) {
        return Err(Wrong::Form);
    }
    if !text::all_text(class, s) {
        return Err(Wrong::Form);
    }
    if n < s.len() {
        return Err(Wrong::Range);
    }
    Ok(Content::Text)
}

// Form, then range, then the value.
fn judge_type(t: FieldType, class: &[u8; 256], s: &[u8]) -> Result<Content, Wrong>
    requires { Sound t × IsClassTable class.now }
    ensures { result ≡ filled t bare s.now }
{
    match t {
        FieldType::Text(n) => judge_text(class, s, n),
        FieldType::Int(n) => judge_int(s, n),
        FieldType::Dec(p, q) => judge_dec(s, p, q),
        FieldType::Date => judge_date(s),
        FieldType::Datetime => judge_datetime(s),
        FieldType::Bol => judge_bol(s),
        FieldType::Period => judge_period(s),
        FieldType::Null => judge_null(s),
    }
}

// The type is null.
fn is_null(t: FieldType) -> bool
    ensures { result ≡ is_null t }
{
    matches!(t, FieldType::Null)
}

// A field with this mark may be empty, whatever bytes are lent beside it.
fn is_opt(m: Mark) -> bool
    ensures { result ≡ may_be_empty (marked m []) }
{
    matches!(m, Mark::Opt)
}

// A fixed value is compared as bytes.
fn meets_mark(m: Mark, fixed: &[u8], s: &[u8]) -> bool
    ensures { result ≡ meets_mark (marked m fixed.now) s.now }
{
    match m {
        Mark::Bare | Mark::Opt => true,
        Mark::Fixed => text::same_bytes(fixed, s),
    }
}

// A field by its type and mark: 7, 8, 9, 10, or what it holds.
#[tactic(auto, using(crate::proofs::Filled::mark_last, crate::proofs::Filled::any_bytes), unfolding(crate::specs::Judge::field_answer))]
pub fn judge_marked(
    t: FieldType,
    m: Mark,
    fixed: &[u8],
    class: &[u8; 256],
    s: &[u8],
) -> Result<Content, Wrong>
    requires { Sound t × IsClassTable class.now }
    ensures { result ≡ field_answer t (marked m fixed.now) s.now }
{
    if is_null(t) {
        if s.is_empty() {
            return Ok(Content::Empty);
        }
        return Err(Wrong::Fixed);
    }
    if s.is_empty() {
        if is_opt(m) {
            return Ok(Content::Empty);
        }
        return Err(Wrong::Missing);
    }
    let content = judge_type(t, class, s)?;
    if !meets_mark(m, fixed, s) {
        return Err(Wrong::Fixed);
    }
    Ok(content)
}

// The widths of a dec: p 2 to 18, q 1 to p-1.
#[tactic(auto, unfolding(crate::specs::Types::width_right))]
fn dec_width(p: usize, q: usize) -> bool
    ensures { result ≡ width_right (types.Dec p q) }
{
    (2..=18).contains(&p) && (1..p).contains(&q)
}

// The widths that there are: text 1 to 512, int 1 to 18, dec p 2 to 18 with q 1 to p-1.
#[tactic(auto, unfolding(crate::specs::Types::width_right))]
fn width_right(t: FieldType) -> bool
    ensures { result ≡ width_right t }
{
    match t {
        FieldType::Text(n) => (1..=512).contains(&n),
        FieldType::Int(n) => (1..=18).contains(&n),
        FieldType::Dec(p, q) => dec_width(p, q),
        FieldType::Date
        | FieldType::Datetime
        | FieldType::Bol
        | FieldType::Period
        | FieldType::Null => true,
    }
}

// The judge of one field's bytes: any type, any width, any mark, any bytes.
#[tactic(auto, using(crate::proofs::Filled::right_sound), unfolding(crate::specs::Judge::field_judged, crate::specs::Judge::judged_as))]
pub fn judge(t: FieldType, m: Mark, fixed: &[u8], s: &[u8]) -> Result<Content, Wrong>
    ensures { paper s.now result ≡ field_judged t (marked m fixed.now) s.now }
{
    if !width_right(t) {
        return Err(Wrong::Width);
    }
    let class = text::class_table();
    judge_marked(t, m, fixed, &class, s)
}

// Keys of this type go by byte, not by value.
fn by_bytes(t: FieldType) -> bool
    ensures { result ≡ by_bytes t }
{
    matches!(t, FieldType::Text(_) | FieldType::Bol | FieldType::Null)
}

// How the key a stands to the key b: texts by byte, all others by value.
#[tactic(auto, unfolding(crate::specs::Keys::key_order))]
pub fn key_order(t: FieldType, a: &[u8], b: &[u8]) -> Ordering
    ensures { result ≡ key_order t a.now b.now }
{
    if by_bytes(t) {
        return text::text_order(a, b);
    }
    number::whole_order(a, b)
}
