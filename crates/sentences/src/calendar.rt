// The calendar in words: the rule of months and leap years, and why the digits of a date name no day.
use findings::Part;
use stream::{Unwritten, print};

// The name of a month.
fn say_month(rt: &(impl Print + Eprint), m: u64) -> Result<(), Unwritten> {
    match m {
        1 => print(rt, b"January"),
        2 => print(rt, b"February"),
        3 => print(rt, b"March"),
        4 => print(rt, b"April"),
        5 => print(rt, b"May"),
        6 => print(rt, b"June"),
        7 => print(rt, b"July"),
        8 => print(rt, b"August"),
        9 => print(rt, b"September"),
        10 => print(rt, b"October"),
        11 => print(rt, b"November"),
        _ => print(rt, b"December"),
    }
}

// Which years are leap years.
fn say_leap_years(rt: &(impl Print + Eprint)) -> Result<(), Unwritten> {
    print(
        rt,
        b"; leap years are each fourth year but each hundredth, and each four hundredth after all",
    )
}

// `February 1900 has 28 days`, by the year's digits; of a February also which years are leap years.
fn say_length(rt: &(impl Print + Eprint), y: u64, m: u64, digits: &[u8]) -> Result<(), Unwritten> {
    say_month(rt, m)?;
    print(rt, b" ")?;
    print(rt, digits)?;
    print(rt, b" has ")?;
    stream::print_number(rt, number::days_in(y, m))?;
    print(rt, b" days")?;
    if m == 2 {
        say_leap_years(rt)?;
    }
    Ok(())
}

// What the calendar does not have of a date, by its digits and the number that they spell.
fn say_missing(rt: &(impl Print + Eprint), date: &[u8], v: u64) -> Result<(), Unwritten> {
    match findings::missing_in(v) {
        Some(Part::Year) => {
            print(rt, b"; there is no year ")?;
            print(rt, text::part(date, 0, 4))
        }
        Some(Part::Month) => {
            print(rt, b"; there is no month ")?;
            print(rt, text::part(date, 4, 2))
        }
        Some(Part::Day) => {
            print(rt, b"; there is no day ")?;
            print(rt, text::part(date, 6, 2))?;
            print(rt, b": ")?;
            say_length(rt, v / 10000, v / 100 % 100, text::part(date, 0, 4))
        }
        None => Ok(()),
    }
}

// What the calendar does not have of the date with which the digits begin; nothing is said where it has all of it.
pub fn say_no_day(rt: &(impl Print + Eprint), s: &[u8]) -> Result<(), Unwritten> {
    let date = text::part(s, 0, 8);
    match words::read_number(date, 8, 99999999) {
        Some(v) => say_missing(rt, date, v as u64),
        None => Ok(()),
    }
}

// How many days a month has.
pub fn say_months(rt: &(impl Print + Eprint)) -> Result<(), Unwritten> {
    print(
        rt,
        b"; a date's month has 31 days, but April, June, September and November 30, and February 28, in a leap year 29",
    )?;
    say_leap_years(rt)
}
