// A file judged for a flow: its records one after the other, and then its end.
#![tactic(auto)]

ghost use Rattle.std.specs.Prelude.{◌≡◌, not, ◌||◌, List, ℕ, ◌<◌, ◌≤◌, ◌^◌, ◌+◌, ◌*◌, length, set};
ghost use Rattle.text.specs.Characters.{IsClassTable};
ghost use Rattle.layout.specs.Numbers.{layout_of};
ghost use Rattle.flow.specs.Editions.{asked};
ghost use Rattle.judge.specs.File.{ends_in_feed, ended as ended_of, judged_by, placed_by, judged, paper};
ghost use Rattle.judge.specs.Code.{WalkRight};

use fault::State;
use place::Refusal;
use record::{BAR, FEED, RecordSpans};

// A refusal before its place is looked up.
#[derive(Clone, Copy, PartialEq, Eq, Debug)]
pub struct Unplaced {
    pub number: usize,
    pub record: usize,
    pub field: usize,
}

// The last record passed is the last of its kind, with its key from a on, len bytes long.
fn put(slots: &mut [usize; 99], st: State, a: usize, len: usize)
    requires { (st.last ≤ 32) × (length slots.old ≡ 99) }
    ensures { slots.new ≡ set (set (set slots.old (3 * st.last) st.count) (3 * st.last + 1) a) (3 * st.last + 2) len }
{
    let k = st.last;
    slots[3 * k] = st.count;
    slots[3 * k + 1] = a;
    slots[3 * k + 2] = len;
}

// All records of a file or of a sheet, each in turn: the state after them, or the first refusal.
pub fn judge_records(
    t: &[u32],
    fixed: &[u8],
    class: &[u8; 256],
    sep: u8,
    f: &[u8],
) -> Result<State, Unplaced>
    requires { IsClassTable class.now }
    ensures { WalkRight sep (layout_of t.now fixed.now) f.now result }
{
    let mut slots = [0usize; 99];
    let mut st = State {
        count: 0,
        last: 0,
        sum: 0,
    };
    for record in RecordSpans::of(f) {
        match fault::judge_record(t, fixed, class, sep, f, &slots, st, record.of(f)) {
            Err(fault) => {
                return Err(Unplaced {
                    number: fault.number,
                    record: st.count + 1,
                    field: fault.field,
                });
            }
            Ok(passed) => {
                let key = passed.key;
                put(
                    &mut slots,
                    passed.next,
                    record.start + key.start,
                    key.end - key.start,
                );
                st = passed.next;
            }
        }
    }
    Ok(st)
}

// The last byte is a line feed.
fn ends_in_feed(f: &[u8]) -> bool
    ensures { result ≡ ends_in_feed f.now }
{
    f.last() == Some(&FEED)
}

// The last line feed is there, or not needed.
fn feed_right(t: &[u32], f: &[u8]) -> bool
    ensures { (fixed : List ℕ) → result ≡ (not (layout_of t.now fixed).feed || ends_in_feed f.now) }
{
    !layout::needs_feed(t) || ends_in_feed(f)
}

// After the last record: 14, 15, or accepted with so many records.
fn ended(t: &[u32], st: State, f: &[u8]) -> Result<usize, Unplaced>
    requires { st.count + 1 < 2 ^ 64 }
    ensures { (fixed : List ℕ) → result ≡ ended_of (layout_of t.now fixed) st.count st.last (ends_in_feed f.now) }
{
    if !layout::is_footer(t, st.last) {
        return Err(Unplaced {
            number: 14,
            record: st.count + 1,
            field: 0,
        });
    }
    if !feed_right(t, f) {
        return Err(Unplaced {
            number: 15,
            record: st.count,
            field: 0,
        });
    }
    Ok(st.count)
}

// A file by a table: 2, then its records, then its end.
fn verdict_by(t: &[u32], fixed: &[u8], f: &[u8]) -> Result<usize, Unplaced>
    ensures { result ≡ judged_by (layout_of t.now fixed.now) f.now }
{
    if 1048576 < f.len() {
        return Err(Unplaced {
            number: 2,
            record: 0,
            field: 0,
        });
    }
    let class = text::class_table();
    let st = judge_records(t, fixed, &class, BAR, f)?;
    ended(t, st, f)
}

// A file by a table, accepted with its number of records. A refusal's place is looked for only where there is one.
pub fn judge_by(t: &[u32], fixed: &[u8], f: &[u8]) -> Result<usize, Refusal>
    ensures { result ≡ placed_by (layout_of t.now fixed.now) f.now }
{
    verdict_by(t, fixed, f).map_err(|r| place::at(BAR, f, r.number, r.record, r.field))
}

// A file for the flow that the words ask for, accepted with its number of records. Any words, any bytes.
pub fn judge(flow: &[u8], f: &[u8]) -> Result<usize, Refusal>
    ensures { paper result ≡ judged (asked flow.now) f.now }
{
    let table = flow::table_of(flow::find(flow)?);
    judge_by(&table.numbers, &table.fixed, f)
}
