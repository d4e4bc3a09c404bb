// Is a period in a P0012 file: read up to the first record that can tell, and no further.
#![tactic(auto)]

ghost use Rattle.std.specs.Prelude.{◌≡◌, false, [], ◌≤◌, length, take};
ghost use Rattle.record.specs.Records.{records, bar};
ghost use Rattle.layout.specs.Numbers.{layout_of};
ghost use Rattle.flow.specs.Publication.{layout_for};
ghost use Rattle.flow.specs.Flows.{flow_at};
ghost use Rattle.flow.specs.Editions.{asked};
ghost use Rattle.judge.specs.File.{checked_from, judged_by};
ghost use Rattle.period.specs.Answer.{period_of, has_a_period, period_in, answered, has_by, in_range, has_period, paper};
ghost use Rattle.period.specs.Code.{StopFound};

use field::Content;
use place::Refusal;
use record::{BAR, RecordSpans};

// Where reading stops: the end of the record there, and whether its period is the one asked for.
#[derive(Clone, Copy)]
struct Stop {
    end: usize,
    is_asked: bool,
}

// The period that a field's bytes say; 0 where they are no period. An arm for several cases would not tell the proof which it is.
fn period_of(s: &[u8]) -> usize
    ensures { result ≡ period_of s.now }
{
    match field::judge_period(s) {
        Ok(Content::Number(z)) => z as usize,
        Ok(Content::Empty) => 0,
        Ok(Content::Truth(_)) => 0,
        Ok(Content::Text) => 0,
        Err(_) => 0,
    }
}

// The kind is GSP or GS2.
#[tactic(auto, using(words::proofs::Bytewise::by_bytes_first))]
fn has_a_period(kind: &[u8]) -> bool
    ensures { result ≡ has_a_period kind.now }
{
    matches!(kind, b"GSP" | b"GS2")
}

// The period of a GSP or GS2; 0 for a record of another kind.
fn period_in(r: &[u8]) -> usize
    ensures { result ≡ period_in r.now }
{
    if !has_a_period(words::part(BAR, r, 1)) {
        return 0;
    }
    period_of(words::part(BAR, r, 2))
}

// The first GSP or GS2 whose period is the asked one or above.
fn stop_in(f: &[u8], period: usize) -> Option<Stop>
    ensures { StopFound f.now period result }
{
    for record in RecordSpans::of(f) {
        let found = period_in(record.of(f));
        if period <= found {
            return Some(Stop {
                end: record.end,
                is_asked: period == found,
            });
        }
    }
    None
}

// With a stop, whose record ends at `end`: the first refusal of a record up to it and with it, or the answer.
fn up_to_stop(t: &[u32], fixed: &[u8], f: &[u8], end: usize, has: bool) -> Result<bool, Refusal>
    requires { end ≤ length f.now }
    ensures { result ≡ answered f.now (checked_from bar (layout_of t.now fixed.now) [] (records (take end f.now))) has }
{
    let class = text::class_table();
    judge::judge_records(t, fixed, &class, BAR, &f[..end])
        .map(|_| has)
        .map_err(|r| place::at(BAR, f, r.number, r.record, r.field))
}

// Without a stop: what the reader refuses, or no.
fn to_the_end(t: &[u32], fixed: &[u8], f: &[u8]) -> Result<bool, Refusal>
    ensures { result ≡ answered f.now (judged_by (layout_of t.now fixed.now) f.now) false }
{
    judge::judge_by(t, fixed, f)?;
    Ok(false)
}

// By a table: 2, then the records up to the stop; without one the whole file.
fn has_by(t: &[u32], fixed: &[u8], f: &[u8], period: usize) -> Result<bool, Refusal>
    requires { 1 ≤ period }
    ensures { result ≡ has_by (layout_of t.now fixed.now) f.now period }
{
    if 1048576 < f.len() {
        return Err(place::whole(2));
    }
    match stop_in(f, period) {
        Some(stop) => up_to_stop(t, fixed, f, stop.end, stop.is_asked),
        None => to_the_end(t, fixed, f),
    }
}

// For flow number n: 18 for a period outside 1 to 50, then by its table.
fn in_flow(n: usize, f: &[u8], period: usize) -> Result<bool, Refusal>
    ensures { result ≡ in_range (layout_for (flow_at n)) f.now period }
{
    if !(1..=50).contains(&period) {
        return Err(place::whole(18));
    }
    let table = flow::table_of(n);
    has_by(&table.numbers, &table.fixed, f, period)
}

// Is a period in a file for the flow that the words ask for. Any words, any bytes, any number.
pub fn has(flow: &[u8], f: &[u8], period: usize) -> Result<bool, Refusal>
    ensures { paper result ≡ has_period (asked flow.now) f.now period }
{
    let n = flow::find(flow)?;
    if !flow.starts_with(b"P0012001") {
        return Err(place::whole(22));
    }
    in_flow(n, f, period)
}
