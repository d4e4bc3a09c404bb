// The eleven public parts under C names. An answer is four numbers in a lent array: include/screen.h says what each cell holds.
// A flow is asked for by words: its name, or that, a space and an edition.
#![tactic(auto)]

ghost use Rattle.std.specs.Prelude.{◌≡◌, List, ℕ, length};
ghost use Rattle.checksum.specs.Checksum.{checksum_of};
ghost use Rattle.field.specs.Judge.{marked};
ghost use Rattle.field.specs.Codes.{type_coded, mark_coded};
ghost use Rattle.flow.specs.Editions.{asked};
ghost use Rattle.flow.specs.Step.{paper as step_paper};
ghost use Rattle.index.specs.Entries.{paper as index_paper};
ghost use Rattle.judge.specs.File.{judged, paper as judge_paper};
ghost use Rattle.period.specs.Answer.{has_period, paper as period_paper};
ghost use Rattle.sheet.specs.Write.{paper as transfer_paper};
ghost use Rattle.value.specs.Value.{valued, paper as value_paper};
ghost use Rattle.screen.specs.Numbers.{refusal_cells, judge_cells, transfer_cells, WroteCells, ReadCells, ExportedCells, ImportedCells, number_cells, value_cells, period_cells, field_cells, field_asked, step_cells, Stepped, index_cells, FilledCells};

use field::{FieldType, Mark};
use flow::{NoStep, Through};
use index::Filled;
use place::Refusal;
use sheet::Transferred;
use value::Value;

// A refusal's number, record, field and place.
fn refusal_cells(r: Refusal) -> [u64; 4]
    ensures { result ≡ refusal_cells r.number r.record r.field r.place }
{
    [
        r.number as u64,
        r.record as u64,
        r.field as u64,
        r.place as u64,
    ]
}

// What is said of a file.
fn judge_cells(v: Result<usize, Refusal>) -> [u64; 4]
    ensures { result ≡ judge_cells (judge_paper v) }
{
    match v {
        Ok(records) => [0, records as u64, 0, 0],
        Err(refusal) => refusal_cells(refusal),
    }
}

// Judges a file for a flow.
#[unsafe(no_mangle)]
pub extern "C" fn screen_judge(flow: &[u8], file: &[u8], answer: &mut [u64; 4])
    ensures { answer.new ≡ judge_cells (judged (asked flow.now) file.now) }
{
    *answer = judge_cells(judge::judge(flow, file));
}

// What is said of a file written or exported, of a sheet read or imported.
fn transfer_cells(t: Result<Transferred, Refusal>) -> [u64; 4]
    ensures { result ≡ transfer_cells (transfer_paper t) }
{
    match t {
        Ok(done) => [0, done.records as u64, done.bytes as u64, 0],
        Err(refusal) => refusal_cells(refusal),
    }
}

// Writes the file of a sheet for a flow into the lent bytes.
#[unsafe(no_mangle)]
pub extern "C" fn screen_write(flow: &[u8], sheet: &[u8], out: &mut [u8], answer: &mut [u64; 4])
    ensures { WroteCells (asked flow.now) sheet.now answer.new out.old out.new }
{
    *answer = transfer_cells(sheet::write(flow, sheet, out));
}

// Reads a file for a flow to a sheet in the lent bytes.
#[unsafe(no_mangle)]
pub extern "C" fn screen_read(flow: &[u8], file: &[u8], out: &mut [u8], answer: &mut [u64; 4])
    ensures { ReadCells (asked flow.now) file.now answer.new out.old out.new }
{
    *answer = transfer_cells(sheet::read(flow, file, out));
}

// Exports a file for a flow as comma-separated text in the lent bytes.
#[unsafe(no_mangle)]
pub extern "C" fn screen_export(flow: &[u8], file: &[u8], out: &mut [u8], answer: &mut [u64; 4])
    ensures { ExportedCells (asked flow.now) file.now answer.new out.old out.new }
{
    *answer = transfer_cells(csv_text::export(flow, file, out));
}

// Imports comma-separated text as a sheet in the lent bytes.
#[unsafe(no_mangle)]
pub extern "C" fn screen_import(text: &[u8], out: &mut [u8], answer: &mut [u64; 4])
    ensures { ImportedCells text.now answer.new out.old out.new }
{
    *answer = transfer_cells(csv_text::import(text, out));
}

// A number with its sign. One below zero is turned from -1 on, so that the lowest number has a size too.
fn number_cells(z: i64) -> [u64; 4]
    ensures { result ≡ number_cells z }
{
    if 0 <= z {
        return [0, 2, z as u64, 0];
    }
    [0, 2, (-1 - z) as u64 + 1, 1]
}

// The value of a field of a file.
fn value_cells(v: Result<Value, Refusal>) -> [u64; 4]
    ensures { (f : List ℕ) → result ≡ value_cells (value_paper f v) }
{
    match v {
        Err(refusal) => refusal_cells(refusal),
        Ok(Value::Empty) => [0, 1, 0, 0],
        Ok(Value::Number(z)) => number_cells(z),
        Ok(Value::Truth(b)) => [0, 3, u64::from(b), 0],
        Ok(Value::Text { from, to }) => [0, 4, from as u64, to as u64],
    }
}

// Gives the value of a field of a file for a flow.
#[unsafe(no_mangle)]
pub extern "C" fn screen_value(flow: &[u8], file: &[u8], n: usize, k: usize, answer: &mut [u64; 4])
    ensures { answer.new ≡ value_cells (valued (asked flow.now) file.now n k) }
{
    *answer = value_cells(value::value_of(flow, file, n, k));
}

// What is said of a period in a file, as a truth.
fn period_cells(a: Result<bool, Refusal>) -> [u64; 4]
    ensures { result ≡ period_cells (period_paper a) }
{
    match a {
        Err(refusal) => refusal_cells(refusal),
        Ok(b) => [0, 3, u64::from(b), 0],
    }
}

// Says whether a file for a flow has a period, and reads no further than it must.
#[unsafe(no_mangle)]
pub extern "C" fn screen_period(flow: &[u8], file: &[u8], period: usize, answer: &mut [u64; 4])
    ensures { answer.new ≡ period_cells (has_period (asked flow.now) file.now period) }
{
    *answer = period_cells(period::has(flow, file, period));
}

// The type of a code, with its widths.
fn type_coded(code: u32, p: usize, q: usize) -> FieldType
    ensures { result ≡ type_coded code p p q }
{
    match code {
        0 => FieldType::Text(p),
        1 => FieldType::Int(p),
        2 => FieldType::Dec(p, q),
        3 => FieldType::Date,
        4 => FieldType::Datetime,
        5 => FieldType::Bol,
        6 => FieldType::Period,
        _ => FieldType::Null,
    }
}

// The mark of a code; the fixed bytes are lent beside it.
fn mark_coded(code: u32) -> Mark
    ensures { (bytes : List ℕ) → marked result bytes ≡ mark_coded code bytes }
{
    match code {
        1 => Mark::Opt,
        2 => Mark::Fixed,
        _ => Mark::Bare,
    }
}

// Judges one field's bytes against a type and a mark, given as codes. Any number gets an answer.
#[unsafe(no_mangle)]
pub extern "C" fn screen_field(
    kind: u32,
    p: usize,
    q: usize,
    mark: u32,
    fixed: &[u8],
    bytes: &[u8],
    answer: &mut [u64; 4],
)
    ensures { answer.new ≡ field_cells (field_asked kind p q mark fixed.now bytes.now) }
{
    if 7 < kind {
        *answer = [18, 0, 0, 0];
        return;
    }
    if 2 < mark {
        *answer = [18, 0, 0, 0];
        return;
    }
    let a = field::judge(type_coded(kind, p, q), mark_coded(mark), fixed, bytes);
    let numbered = a.map_err(|wrong| wrong.number());
    *answer = value_cells(value::as_value(numbered, 0, 0, 0, bytes.len()));
}

// Takes the checksum of bytes.
#[unsafe(no_mangle)]
pub extern "C" fn screen_checksum(bytes: &[u8]) -> u32
    ensures { result ≡ checksum_of bytes.now }
{
    checksum::of_bytes(bytes)
}

// What the step answers.
fn step_cells(a: Result<Through, NoStep>) -> [u64; 4]
    ensures { result ≡ step_cells (step_paper a) }
{
    match a {
        Err(NoStep::Refused(refusal)) => refusal_cells(refusal),
        Err(NoStep::Stopped(place)) => [0, place as u64, 0, 0],
        Ok(Through { count, complete }) => [0, 0, count as u64, u64::from(complete)],
    }
}

// Steps the flow table through kinds; the names of those that may follow go to the front of the lent bytes.
#[unsafe(no_mangle)]
pub extern "C" fn screen_step(
    flow: &[u8],
    kinds: &[u8],
    follow: &mut [u8; 96],
    answer: &mut [u64; 4],
)
    ensures { Stepped (asked flow.now) kinds.now answer.new follow.old follow.new }
{
    *answer = step_cells(flow::step(flow, kinds, follow));
}

// What is said of an index.
fn index_cells(said: Result<Filled, Refusal>) -> [u64; 4]
    ensures { result ≡ index_cells (index_paper said) }
{
    match said {
        Ok(Filled { records, entries }) => [0, records as u64, entries as u64, 0],
        Err(refusal) => refusal_cells(refusal),
    }
}

// Fills the lent cells with the index of a file for a flow, four an entry.
#[unsafe(no_mangle)]
pub extern "C" fn screen_index(flow: &[u8], file: &[u8], cells: &mut [u64], answer: &mut [u64; 4])
    ensures { FilledCells (asked flow.now) file.now answer.new cells.old cells.new }
{
    *answer = index_cells(index::fill_cells(flow, file, cells));
}
