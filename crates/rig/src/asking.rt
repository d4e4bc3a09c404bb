// value, period, field, sum, step, explain: one thing asked.
ghost use Rattle.record.specs.Records.{bar};
ghost use Rattle.pointing.specs.Shown.{Placed};

use crate::arguments::{Hindered, hinder, load_word, number_word};
use crate::judging::refuse;
use field::{Content, FieldType, Mark};
use flow::NoStep;
use place::Refusal;
use printing::{print_numbers, print_refusal, print_truth, print_value, print_whole};
use record::BAR;
use std::rt::{Env, Files};
use stream::{Ending, Unwritten};
use value::Value;

// Prints the value of one field of a file.
fn value_in(
    rt: &(impl Print + Eprint),
    flow: &[u8],
    file: &[u8],
    record: usize,
    field: usize,
) -> Result<Ending, Hindered> {
    match value::value_of(flow, file, record, field) {
        Err(r) => return refuse(rt, flow, BAR, file, r),
        Ok(Value::Empty) => print_value(rt, b"empty", b"")?,
        Ok(Value::Number(n)) => print_whole(rt, n)?,
        Ok(Value::Truth(truth)) => print_truth(rt, truth)?,
        Ok(Value::Text { from, to }) => print_value(rt, b"text", &file[from..to])?,
    }
    Ok(Ending::Well)
}

// Prints the value of the field that words 4 and 5 ask for.
fn value_asked(rt: &(impl Env + Print + Eprint), file: &[u8]) -> Result<Ending, Hindered> {
    let Some(record) = number_word(rt, 4) else {
        return Err(hinder(rt, b"RECORD is a whole number up to 1,000,000,000"));
    };
    let Some(field) = number_word(rt, 5) else {
        return Err(hinder(rt, b"FIELD is a whole number up to 1,000,000,000"));
    };
    let mut flow = io::large_buffer();
    let f = stream::arg(rt, 2, &mut flow);
    value_in(rt, &flow[..f], file, record, field)
}

// value FLOW FILE RECORD FIELD
pub fn value_of(
    rt: &(impl Env + Files + Print + Eprint),
    room: &mut [u8],
) -> Result<Ending, Hindered> {
    let size = load_word(rt, 3, room)?;
    value_asked(rt, &room[..size])
}

// Prints a refusal where a period is asked for, the sentence on it, and the byte that it points at.
fn refuse_period(
    rt: &(impl Print + Eprint),
    flow: &[u8],
    file: &[u8],
    period: usize,
    r: Refusal,
) -> Result<Ending, Hindered>
    requires { Placed bar file.now r }
{
    print_refusal(rt, r)?;
    sentences::about_period(rt, flow, file, period, r)?;
    pointing::point(rt, BAR, file, r)?;
    Ok(Ending::Refused)
}

// Prints whether a period is in a file, as a truth.
fn period_in(
    rt: &(impl Print + Eprint),
    flow: &[u8],
    file: &[u8],
    period: usize,
) -> Result<Ending, Hindered> {
    match period::has(flow, file, period) {
        Err(r) => refuse_period(rt, flow, file, period, r),
        Ok(has) => {
            print_truth(rt, has)?;
            Ok(Ending::Well)
        }
    }
}

// Prints whether the period that word 4 asks for is in a file.
fn period_asked(rt: &(impl Env + Print + Eprint), file: &[u8]) -> Result<Ending, Hindered> {
    let Some(period) = number_word(rt, 4) else {
        return Err(hinder(rt, b"PERIOD is a whole number up to 1,000,000,000"));
    };
    let mut flow = io::large_buffer();
    let f = stream::arg(rt, 2, &mut flow);
    period_in(rt, &flow[..f], file, period)
}

// period FLOW FILE PERIOD
pub fn period_of(
    rt: &(impl Env + Files + Print + Eprint),
    room: &mut [u8],
) -> Result<Ending, Hindered> {
    let size = load_word(rt, 3, room)?;
    period_asked(rt, &room[..size])
}

// sum FILE
pub fn sum_of(
    rt: &(impl Env + Files + Print + Eprint),
    room: &mut [u8],
) -> Result<Ending, Hindered> {
    let size = load_word(rt, 2, room)?;
    if 1048576 < size {
        return Err(hinder(rt, b"FILE has more than 1,048,576 bytes"));
    }
    let sum = checksum::of_bytes(&room[..size]);
    print_numbers(rt, b"ok", &[0, sum as usize, 0])?;
    Ok(Ending::Well)
}

// Prints that a field is refused, and the sentence on it.
fn refuse_field(
    rt: &(impl Print + Eprint),
    form: FieldType,
    mark: Mark,
    fixed: &[u8],
    bytes: &[u8],
    number: usize,
) -> Result<Ending, Hindered> {
    print_refusal(rt, place::whole(number))?;
    sentences::about_field(rt, form, mark, fixed, bytes, number)?;
    Ok(Ending::Refused)
}

// Prints what one field's bytes are by a type and its mark.
fn field_by(
    rt: &(impl Print + Eprint),
    form: FieldType,
    mark: Mark,
    fixed: &[u8],
    bytes: &[u8],
) -> Result<Ending, Hindered> {
    match field::judge(form, mark, fixed, bytes) {
        Err(wrong) => return refuse_field(rt, form, mark, fixed, bytes, wrong.number() as usize),
        Ok(Content::Empty) => print_value(rt, b"empty", b"")?,
        Ok(Content::Number(n)) => print_whole(rt, n)?,
        Ok(Content::Truth(truth)) => print_truth(rt, truth)?,
        Ok(Content::Text) => print_value(rt, b"text", bytes)?,
    }
    Ok(Ending::Well)
}

// The type that word 2 spells.
fn form_word(rt: &impl Env) -> Option<FieldType> {
    let mut spelled = io::large_buffer();
    let n = stream::arg(rt, 2, &mut spelled);
    words::read_form(&spelled[..n])
}

// Says which types there are.
fn no_type(rt: &impl Eprint) -> Hindered {
    hinder(
        rt,
        b"TYPE is text(n), int(n), dec(p,q), date, datetime, bol, period or null",
    )
}

// field TYPE BYTES
pub fn bare_field(rt: &(impl Env + Print + Eprint)) -> Result<Ending, Hindered> {
    let Some(form) = form_word(rt) else {
        return Err(no_type(rt));
    };
    let mut bytes = io::large_buffer();
    let n = stream::arg(rt, 3, &mut bytes);
    field_by(rt, form, Mark::Bare, b"", &bytes[..n])
}

// The mark that a word spells: a fixed value stands behind its `=`.
fn mark_of(spelled: &[u8]) -> Option<Mark> {
    if spelled.starts_with(b"=") {
        return words::read_mark(b"=");
    }
    words::read_mark(spelled)
}

// field TYPE MARK BYTES
pub fn marked_field(rt: &(impl Env + Print + Eprint)) -> Result<Ending, Hindered> {
    let Some(form) = form_word(rt) else {
        return Err(no_type(rt));
    };
    let mut spelled = io::large_buffer();
    let m = stream::arg(rt, 3, &mut spelled);
    let Some(mark) = mark_of(&spelled[..m]) else {
        return Err(hinder(
            rt,
            b"MARK is opt, = with the fixed value behind it, or - for none",
        ));
    };
    let mut bytes = io::large_buffer();
    let n = stream::arg(rt, 4, &mut bytes);
    field_by(rt, form, mark, text::part(&spelled[..m], 1, m), &bytes[..n])
}

// Prints where a list of kinds stopped, and the sentence on it.
fn stop(
    rt: &(impl Print + Eprint),
    flow: &[u8],
    kinds: &[u8],
    place: usize,
) -> Result<Ending, Hindered> {
    print_numbers(rt, b"stopped", &[0, place, 0])?;
    sentences::about_stop(rt, flow, kinds, place)?;
    Ok(Ending::Refused)
}

// Prints where a list of kinds leads.
fn step_by(rt: &(impl Print + Eprint), flow: &[u8], kinds: &[u8]) -> Result<Ending, Hindered> {
    let mut follow = [0u8; 96];
    match flow::step(flow, kinds, &mut follow) {
        Err(NoStep::Refused(r)) => refuse(rt, flow, BAR, b"", r),
        Err(NoStep::Stopped(place)) => stop(rt, flow, kinds, place),
        Ok(through) => {
            printing::print_follow(rt, through.count, through.complete, &follow)?;
            Ok(Ending::Well)
        }
    }
}

// step FLOW KINDS
pub fn step_words(rt: &(impl Env + Print + Eprint)) -> Result<Ending, Hindered> {
    let mut flow = io::large_buffer();
    let f = stream::arg(rt, 2, &mut flow);
    let mut kinds = io::large_buffer();
    let k = stream::arg(rt, 3, &mut kinds);
    step_by(rt, &flow[..f], &kinds[..k])
}

// Says which refusals there are.
fn no_rule(rt: &impl Eprint) -> Hindered {
    hinder(rt, b"NUMBER is 1 to 22")
}

// explain NUMBER
pub fn explain_word(rt: &(impl Env + Print + Eprint)) -> Result<Ending, Hindered> {
    let Some(n) = number_word(rt, 2) else {
        return Err(no_rule(rt));
    };
    if !findings::is_refusal(n) {
        return Err(no_rule(rt));
    }
    sentences::explain(rt, n)?;
    Ok(Ending::Well)
}
