// Types and marks, and what they ask of a field, in words.
use crate::{calendar, say};
use field::{FieldType, Mark};
use stream::{Unwritten, print};

// A name and one width.
fn wide(rt: &(impl Print + Eprint), name: &[u8], n: usize) -> Result<(), Unwritten> {
    print(rt, name)?;
    print(rt, b"(")?;
    say::number(rt, n)?;
    print(rt, b")")
}

// The name and the two widths of a dec.
fn dec(rt: &(impl Print + Eprint), p: usize, q: usize) -> Result<(), Unwritten> {
    print(rt, b"dec(")?;
    say::number(rt, p)?;
    print(rt, b",")?;
    say::number(rt, q)?;
    print(rt, b")")
}

// A type in document 01's spelling.
fn form(rt: &(impl Print + Eprint), t: FieldType) -> Result<(), Unwritten> {
    match t {
        FieldType::Text(n) => wide(rt, b"text", n),
        FieldType::Int(n) => wide(rt, b"int", n),
        FieldType::Dec(p, q) => dec(rt, p, q),
        FieldType::Date => print(rt, b"date"),
        FieldType::Datetime => print(rt, b"datetime"),
        FieldType::Bol => print(rt, b"bol"),
        FieldType::Period => print(rt, b"period"),
        FieldType::Null => print(rt, b"null"),
    }
}

// A mark, and behind `=` the fixed value.
fn mark_words(rt: &(impl Print + Eprint), mark: Mark, fixed: &[u8]) -> Result<(), Unwritten> {
    match mark {
        Mark::Bare => Ok(()),
        Mark::Opt => print(rt, b" opt"),
        Mark::Fixed => {
            print(rt, b" =")?;
            say::spelled(rt, fixed)
        }
    }
}

// The form of a dec with q places.
fn dec_form(rt: &(impl Print + Eprint), q: usize) -> Result<(), Unwritten> {
    print(
        rt,
        b"whole part as int (but -0 if a later digit is not 0), point, exactly ",
    )?;
    say::number(rt, q)?;
    print(rt, b" digits")
}

// The form of a type.
fn form_words(rt: &(impl Print + Eprint), t: FieldType) -> Result<(), Unwritten> {
    match t {
        FieldType::Text(_) => print(
            rt,
            b"A-Z, a-z, 0-9, space and . , - ( ) / ' + : = ? ! \" % & * ; < > _ with no leading or trailing space",
        ),
        FieldType::Int(_) => print(rt, b"digits, - before if negative; no leading zero, no -0"),
        FieldType::Dec(_, q) => dec_form(rt, q),
        FieldType::Date => print(rt, b"8 digits, YYYYMMDD"),
        FieldType::Datetime => print(rt, b"14 digits, YYYYMMDDhhmmss"),
        FieldType::Bol => print(rt, b"T or F"),
        FieldType::Period => print(rt, b"digits, no leading zero"),
        FieldType::Null => print(rt, b"always empty"),
    }
}

// A number of things that are counted.
fn at_most(rt: &(impl Print + Eprint), n: usize, what: &[u8]) -> Result<(), Unwritten> {
    print(rt, b"at most ")?;
    say::number(rt, n)?;
    print(rt, what)
}

// The range of a type, and of a date that was found out of it, why.
fn range_words(rt: &(impl Print + Eprint), t: FieldType, found: &[u8]) -> Result<(), Unwritten> {
    match t {
        FieldType::Text(n) => at_most(rt, n, b" characters"),
        FieldType::Int(n) => at_most(rt, n, b" digits, sign not counted"),
        FieldType::Dec(p, _) => at_most(rt, p, b" digits in all"),
        FieldType::Date => {
            print(rt, b"a day of the Gregorian calendar, years 0001 to 9999")?;
            calendar::say_no_day(rt, found)
        }
        FieldType::Datetime => {
            print(
                rt,
                b"a day of the Gregorian calendar, years 0001 to 9999, hours 00-23, minutes and seconds 00-59",
            )?;
            calendar::say_no_day(rt, found)
        }
        FieldType::Bol => print(rt, b"T or F"),
        FieldType::Period => print(rt, b"1 to 50"),
        FieldType::Null => print(rt, b"always empty"),
    }
}

// The widths that a type may have.
pub fn width_words(rt: &(impl Print + Eprint), t: FieldType) -> Result<(), Unwritten> {
    match t {
        FieldType::Text(_) => print(rt, b"a text's width is 1 to 512"),
        FieldType::Int(_) => print(rt, b"an int's width is 1 to 18"),
        FieldType::Dec(_, _) => print(
            rt,
            b"a dec's first width is 2 to 18, and its second 1 to one less than the first",
        ),
        FieldType::Date => print(rt, b"a date has no width"),
        FieldType::Datetime => print(rt, b"a datetime has no width"),
        FieldType::Bol => print(rt, b"a bol has no width"),
        FieldType::Period => print(rt, b"a period has no width"),
        FieldType::Null => print(rt, b"a null has no width"),
    }
}

// The form or the range of a type, where that was refused.
fn asked_words(
    rt: &(impl Print + Eprint),
    refusal: usize,
    t: FieldType,
    found: &[u8],
) -> Result<(), Unwritten> {
    match refusal {
        8 => {
            print(rt, b": ")?;
            form_words(rt, t)
        }
        9 => {
            print(rt, b": ")?;
            range_words(rt, t, found)
        }
        _ => Ok(()),
    }
}

// What a field should be: its type and mark and, for a refusal 8 or 9, the form or the range.
pub fn right_field(
    rt: &(impl Print + Eprint),
    refusal: usize,
    t: FieldType,
    mark: Mark,
    fixed: &[u8],
    found: &[u8],
) -> Result<(), Unwritten> {
    print(rt, b"; the field is ")?;
    form(rt, t)?;
    mark_words(rt, mark, fixed)?;
    asked_words(rt, refusal, t, found)
}
