// The records in force of an original P0133001 file and its resubmission.
#![tactic(auto)]

ghost use Rattle.std.specs.Prelude.{◌≡◌, cond, ◌+◌, ◌≤◌, ◌<◌, ◌^◌, length, Ok};
ghost use Rattle.layout.specs.Numbers.{layout_of};
ghost use Rattle.flow.specs.Flows.{flow_at};
ghost use Rattle.flow.specs.Editions.{asked, told};
ghost use Rattle.judge.specs.File.{placed_by};
ghost use Rattle.resubmission.specs.Rows.{pair, is_sb1, is_subject, is_of_group, id_field, date_field, rows_in};
ghost use Rattle.resubmission.specs.InForce.{words_in, read, by_rows, in_force_by, in_force_for, in_force, file_number, paper, of, between, further, HandedBack};
ghost use Rattle.resubmission.specs.Code.{pair_of, told_of, one_more, handed_by};

use flow::Table;
use place::Refusal;
use record::{BAR, RecordSpans, Span};

// Which of the two files.
#[derive(Clone, Copy, PartialEq, Eq, Debug)]
pub enum Which {
    Original,
    Resubmission,
}

// The original is 1 in an answer, the resubmission 2.
pub fn file_number(file: Which) -> usize
    ensures { result ≡ file_number file }
{
    match file {
        Which::Original => 1,
        Which::Resubmission => 2,
    }
}

// A record in force: the file that holds it, how many are in force, and where it starts and ends there.
#[derive(Clone, Copy, PartialEq, Eq, Debug)]
pub struct Found {
    pub file: Which,
    pub number: usize,
    pub start: usize,
    pub end: usize,
}

// Why there is none: the reader's refusal of one of the files; or 23, with the number in force.
#[derive(Clone, Copy)]
pub enum NotFound {
    Refused { refusal: Refusal, file: Which },
    NoSuch { refusal: Refusal, number: usize },
}

// What is asked for: a subject's participant id and period end date, and a GSP Group.
#[derive(Clone, Copy)]
struct Pair<'a> {
    id: &'a [u8],
    date: &'a [u8],
    group: &'a [u8],
}

// A pair's records in a file: how many they are, and where the n-th starts and ends, if they come to it.
#[derive(Clone, Copy)]
struct Rows {
    number: usize,
    nth: Option<Span>,
}

// P0133001 in an edition, which is empty where none is named.
#[tactic(auto, using(crate::proofs::Fields::not_named))]
fn flow_in(edition: &[u8]) -> Result<usize, Refusal>
    ensures { told result ≡ asked (words_in edition.now) }
{
    match edition {
        b"" => flow::find(b"P0133001"),
        b"533" => flow::find(b"P0133001 533"),
        b"711" => flow::find(b"P0133001 711"),
        _ => Err(place::whole(21)),
    }
}

// The field of an SB1 that is the id, in flow number m.
#[tactic(auto, using(crate::proofs::Fields::no_id), unfolding(crate::specs::Rows::id_field, crate::specs::Rows::first_free))]
fn id_field(m: usize) -> usize
    ensures { result ≡ id_field (flow_at m) }
{
    match m {
        3 => 4,
        7 => 3,
        _ => 0,
    }
}

// The field of an SB1 that is the date.
#[tactic(auto, using(crate::proofs::Fields::id_small), unfolding(crate::specs::Rows::date_field))]
fn date_field(m: usize) -> usize
    ensures { result ≡ date_field (flow_at m) }
{
    id_field(m) + 1
}

// Under the subject, the record r read: an SB1 decides anew, behind any other record it is as before.
#[tactic(auto, using(words::proofs::Bytewise::by_bytes_first, words::proofs::Bytewise::same_pointwise))]
fn under_subject(m: usize, r: &[u8], asks: &Pair, before: bool) -> bool
    ensures { result ≡ cond (is_sb1 r.now) (is_subject (flow_at m) asks.now.id.now asks.now.date.now r.now) before }
{
    match words::part(BAR, r, 1) {
        b"SB1" => {
            asks.id == words::part(BAR, r, id_field(m))
                && asks.date == words::part(BAR, r, date_field(m))
        }
        _ => before,
    }
}

// A CM1 of the group.
#[tactic(auto, using(words::proofs::Bytewise::by_bytes_first, words::proofs::Bytewise::same_pointwise))]
fn is_of_group(r: &[u8], group: &[u8]) -> bool
    ensures { result ≡ is_of_group group.now r.now }
{
    match words::part(BAR, r, 1) {
        b"CM1" => group == words::part(BAR, r, 2),
        _ => false,
    }
}

// One row more, which is the asked one where it is the n-th.
#[tactic(auto, unfolding(crate::specs::Code::one_more))]
fn one_more(rows: Rows, n: usize, row: Span) -> Rows
    requires { rows.number + 1 < 2 ^ 64 }
    ensures { result ≡ one_more rows n row }
{
    let number = rows.number + 1;
    if number == n {
        return Rows {
            number,
            nth: Some(row),
        };
    }
    Rows { number, ..rows }
}

// The records of the pair in a file, in its order: those of the group under each SB1 of the subject.
fn rows_in(m: usize, f: &[u8], asks: &Pair, n: usize) -> Rows
    ensures { result ≡ told_of (rows_in (flow_at m) (pair_of asks.now) f.now) n }
{
    let mut under = false;
    let mut rows = Rows {
        number: 0,
        nth: None,
    };
    for record in RecordSpans::of(f) {
        let r = record.of(f);
        if under && is_of_group(r, asks.group) {
            rows = one_more(rows, n, record);
        }
        under = under_subject(m, r, asks, under);
    }
    rows
}

// The asked one of the rows in force: 23 where they do not come to it.
fn handed(file: Which, rows: Rows) -> Result<Found, NotFound>
    ensures { result ≡ handed_by file rows }
{
    let number = rows.number;
    let Some(row) = rows.nth else {
        return Err(NotFound::NoSuch {
            refusal: place::whole(23),
            number,
        });
    };
    Ok(Found {
        file,
        number,
        start: row.start,
        end: row.end,
    })
}

// The resubmission's records are in force if it has any, else the original's.
#[tactic(auto, using(crate::proofs::Answers::original_holds, crate::proofs::Answers::resubmission_holds))]
fn by_rows(m: usize, a: &[u8], b: &[u8], asks: &Pair, n: usize) -> Result<Found, NotFound>
    ensures { result ≡ by_rows (rows_in (flow_at m) (pair_of asks.now) a.now) (rows_in (flow_at m) (pair_of asks.now) b.now) n }
{
    let rows = rows_in(m, b, asks, n);
    if rows.number == 0 {
        return handed(Which::Original, rows_in(m, a, asks, n));
    }
    handed(Which::Resubmission, rows)
}

// A file is judged by a table: the reader's refusal says which file it is.
fn judged(table: &Table, f: &[u8], file: Which) -> Result<(), NotFound>
    ensures { result ≡ read file (placed_by (layout_of table.now.numbers table.now.fixed) f.now) (Ok tt) }
{
    judge::judge_by(&table.numbers, &table.fixed, f).map_err(|refusal| NotFound::Refused {
        refusal,
        file,
    })?;
    Ok(())
}

// For flow number m: the original is judged, then the resubmission.
#[tactic(auto, using(crate::proofs::Answers::original_refused, crate::proofs::Answers::resubmission_refused, crate::proofs::Answers::both_read))]
fn in_flow(m: usize, a: &[u8], b: &[u8], asks: &Pair, n: usize) -> Result<Found, NotFound>
    ensures { result ≡ in_force_by (flow_at m) a.now b.now (pair_of asks.now) n }
{
    let table = flow::table_of(m);
    judged(&table, a, Which::Original)?;
    judged(&table, b, Which::Resubmission)?;
    by_rows(m, a, b, asks, n)
}

// Where the n-th record in force stands of an original and a resubmission, both P0133001 of one edition, for a participant id, a period
// end date and a GSP Group. Any bytes, any number; no edition named is an empty one.
#[tactic(auto, using(crate::proofs::Answers::no_flow_lem, crate::proofs::Answers::by_flow))]
pub fn in_force(
    edition: &[u8],
    original: &[u8],
    resubmission: &[u8],
    id: &[u8],
    date: &[u8],
    group: &[u8],
    n: usize,
) -> Result<Found, NotFound>
    ensures { paper result ≡ in_force (asked (words_in edition.now)) original.now resubmission.now (pair id.now date.now group.now) n }
{
    let m = flow_in(edition).map_err(|refusal| NotFound::Refused {
        refusal,
        file: Which::Original,
    })?;
    in_flow(m, original, resubmission, &Pair { id, date, group }, n)
}

// The bytes of a record in force, in one of the two files.
fn part_of<'a>(found: Found, a: &'a [u8], b: &'a [u8]) -> &'a [u8]
    requires { (found.start ≤ found.end) × (found.end ≤ length (of found.file a.now b.now)) }
    ensures { (result.now ≡ between (of found.file a.now b.now) found.start found.end) × (result.ref_ptr ≡ further (of found.file a.entry.ref_ptr b.entry.ref_ptr) found.start) }
{
    match found.file {
        Which::Original => &a[found.start..found.end],
        Which::Resubmission => &b[found.start..found.end],
    }
}

// That record itself, a part of whichever of the two files holds it; an empty part where it is refused.
pub fn record_in_force<'a>(
    edition: &[u8],
    original: &'a [u8],
    resubmission: &'a [u8],
    id: &[u8],
    date: &[u8],
    group: &[u8],
    n: usize,
) -> &'a [u8]
    ensures { HandedBack (in_force_for (asked (words_in edition.now)) original.now resubmission.now (pair id.now date.now group.now) n) original.now resubmission.now original.entry.ref_ptr resubmission.entry.ref_ptr result.now result.ref_ptr }
{
    match in_force(edition, original, resubmission, id, date, group, n) {
        Ok(found) => part_of(found, original, resubmission),
        Err(_) => &original[0..0],
    }
}
