// The answer to a case: one line. Each function fails where not all of it was written.
use crate::indexing;
use crate::room::{fill, kept};
use field::{Content, FieldType, Mark};
use flow::NoStep;
use headers::{Ask, Making};
use place::Refusal;
use printing::{print_follow, print_numbers, print_refusal, print_truth, print_value, print_whole};
use sheet::Transferred;
use stream::{Unwritten, print};
use value::Value;

// The value of one field of a file.
fn value_line(
    rt: &(impl Print + Eprint),
    flow: &[u8],
    record: usize,
    field: usize,
    file: &[u8],
) -> Result<(), Unwritten> {
    match value::value_of(flow, file, record, field) {
        Err(r) => print_refusal(rt, r),
        Ok(Value::Empty) => print_value(rt, b"empty", b""),
        Ok(Value::Number(n)) => print_whole(rt, n),
        Ok(Value::Truth(truth)) => print_truth(rt, truth),
        Ok(Value::Text { from, to }) => print_value(rt, b"text", &file[from..to]),
    }
}

// Whether a file has a period.
fn period_line(
    rt: &(impl Print + Eprint),
    flow: &[u8],
    period: usize,
    file: &[u8],
) -> Result<(), Unwritten> {
    match period::has(flow, file, period) {
        Err(r) => print_refusal(rt, r),
        Ok(has) => print_truth(rt, has),
    }
}

// One field's bytes against a type and its mark. A text's value is the bytes themselves.
fn field_line(
    rt: &(impl Print + Eprint),
    form: FieldType,
    mark: Mark,
    fixed: &[u8],
    bytes: &[u8],
) -> Result<(), Unwritten> {
    match field::judge(form, mark, fixed, bytes) {
        Err(wrong) => print_refusal(rt, place::whole(wrong.number() as usize)),
        Ok(Content::Empty) => print_value(rt, b"empty", b""),
        Ok(Content::Number(n)) => print_whole(rt, n),
        Ok(Content::Truth(truth)) => print_truth(rt, truth),
        Ok(Content::Text) => print_value(rt, b"text", bytes),
    }
}

// The checksum of bytes.
fn sum_line(rt: &(impl Print + Eprint), bytes: &[u8]) -> Result<(), Unwritten> {
    print_numbers(rt, b"ok", &[0, checksum::of_bytes(bytes) as usize, 0])
}

// The step of the flow table through kinds.
fn step_line(rt: &(impl Print + Eprint), flow: &[u8], kinds: &[u8]) -> Result<(), Unwritten> {
    let mut follow = [0u8; 96];
    match flow::step(flow, kinds, &mut follow) {
        Err(NoStep::Refused(r)) => print_refusal(rt, r),
        Err(NoStep::Stopped(place)) => print_numbers(rt, b"stopped", &[0, place, 0]),
        Ok(through) => print_follow(rt, through.count, through.complete, &follow),
    }
}

// Makes in the room what is asked of a body.
fn make(making: Making, flow: &[u8], body: &[u8], room: &mut [u8]) -> Result<Transferred, Refusal> {
    match making {
        Making::Write => sheet::write(flow, body, room),
        Making::Read => sheet::read(flow, body, room),
        Making::Export => csv_text::export(flow, body, room),
        Making::Import => csv_text::import(body, room),
    }
}

// What is made in the room: the line of what was done, then the bytes and a line feed; or a refusal.
fn making_line(
    rt: &(impl Print + Eprint),
    making: Making,
    flow: &[u8],
    body: &[u8],
    room: &mut [u8],
) -> Result<(), Unwritten> {
    fill(room);
    match make(making, flow, body, room) {
        Err(r) => print_numbers(
            rt,
            b"refused",
            &[r.number, r.record, r.field, r.place, kept(room, 0) as usize],
        ),
        Ok(Transferred { records, bytes }) => {
            print_numbers(
                rt,
                b"ok",
                &[0, records, bytes, 0, kept(room, bytes) as usize],
            )?;
            print(rt, text::part(room, 0, bytes))?;
            print(rt, b"\n")
        }
    }
}

// Answers a case: what is asked, the words by which its header asks for a flow, the fixed value and the body behind it, and room for a result.
pub fn answer(
    rt: &(impl Print + Eprint),
    ask: Ask,
    flow: &[u8],
    fixed: &[u8],
    body: &[u8],
    room: &mut [u8],
) -> Result<(), Unwritten> {
    match ask {
        Ask::Judge => printing::print_judged(rt, judge::judge(flow, body)),
        Ask::Value { record, field } => value_line(rt, flow, record, field, body),
        Ask::Period { period } => period_line(rt, flow, period, body),
        Ask::Field { form, mark } => field_line(rt, form, mark, fixed, body),
        Ask::Sum => sum_line(rt, body),
        Ask::Step => step_line(rt, flow, body),
        Ask::Make { making, room: size } => {
            let n = size.min(room.len());
            making_line(rt, making, flow, body, &mut room[0..n])
        }
        Ask::Index { room: size } => indexing::index_line(rt, flow, body, size),
    }
}
