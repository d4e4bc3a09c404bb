// An index beside the file: entries in a lent list, one for each record that may have children.
#![tactic(auto)]

ghost use Rattle.std.specs.Prelude.{◌≡◌, ℕ, List, ◌<◌, ◌≤◌, ◌+◌, ◌-◌, ◌/◌, ◌^◌, length, set, drop};
ghost use Rattle.layout.specs.Numbers.{layout_of};
ghost use Rattle.flow.specs.Editions.{asked};
ghost use Rattle.index.specs.declared.Entry.{Entry};
ghost use Rattle.index.specs.Entries.{kinds_of, may_head, heads_in, answer_by, answer_for, FilledRight, CellsRight};
ghost use Rattle.index.specs.Code.{entry_at, heads_of, scanned, entered, advanced, starting, parent_in, kinds_in, HasKinds, with_numbers, read, storing, FilledBy};
ghost use Rattle.index.specs.Slots.{entries_as_long, numbers_as_long};

use place::Refusal;
use record::{BAR, RecordSpans};

// An entry of an index: a record's number and byte place, its parent's entry, counted from 1 (itself where it has no parent), and how many
// direct children it has.
#[derive(Clone, Copy, PartialEq, Eq, Debug)]
pub struct Entry {
    pub record: usize,
    pub place: usize,
    pub parent: usize,
    pub children: usize,
}

// What is said of a list that was filled: the file's number of records and the number of entries.
#[derive(Clone, Copy, PartialEq, Eq, Debug)]
pub struct Filled {
    pub records: usize,
    pub entries: usize,
}

// Where a filling stands: how many records have been read and where to read on, how many entries they had, which kinds may have children,
// the last entry of each kind, and the entry read last.
#[derive(Clone, Copy)]
pub struct Filling {
    pub records: usize,
    pub at: usize,
    pub entries: usize,
    pub heads: [bool; 33],
    pub last: [usize; 33],
    pub entry: Entry,
}

// Records of kind k may have children: some row of the table stands within it.
fn may_head(t: &[u32], k: usize) -> bool
    ensures { result ≡ may_head (kinds_in t.now) k }
{
    k != 0 && (0..layout::row_count(t)).any(|j| layout::head_of(t, j) == k)
}

// Which kinds may have children.
fn heads_of(t: &[u32]) -> [bool; 33]
    ensures { result ≡ heads_of (kinds_in t.now) }
{
    std::array::from_fn(|k| may_head(t, k))
}

// How many records of a file may have children.
fn count_entries(t: &[u32], heads: &[bool; 33], f: &[u8]) -> usize
    requires { heads.now ≡ heads_of (kinds_in t.now) }
    ensures { result ≡ heads_in (kinds_in t.now) (kinds_of (kinds_in t.now) f.now) }
{
    let mut count = 0;
    for record in RecordSpans::of(f) {
        let k = fault::kind_of(t, BAR, record.of(f));
        count += usize::from(heads[k]);
    }
    count
}

// How many of the records from `at` on are children of one of kind k that stands before them.
fn children_from(t: &[u32], f: &[u8], at: usize, k: usize) -> usize
    ensures { result ≡ scanned (kinds_in t.now) k (kinds_of (kinds_in t.now) (drop at f.now)) }
{
    let mut count = 0;
    for record in (RecordSpans { bytes: f, at }) {
        let j = fault::kind_of(t, BAR, record.of(f));
        count += usize::from(layout::head_of(t, j) == k);
        if j == k {
            return count;
        }
    }
    count
}

// The last entry of kind h, or the entry's own number where there is none.
#[tactic(auto, unfolding(crate::specs::Code::parent_in))]
fn parent_in(last: &[usize; 33], h: usize, own: usize) -> usize
    requires { length last.now ≡ 33 }
    ensures { result ≡ parent_in last.now h own }
{
    match last.get(h) {
        Some(&entry) if entry != 0 => entry,
        _ => own,
    }
}

// Before anything is read.
pub fn start(t: &[u32]) -> Filling
    ensures { result ≡ starting (kinds_in t.now) }
{
    Filling {
        records: 0,
        at: 0,
        entries: 0,
        heads: heads_of(t),
        last: [0; 33],
        entry: Entry {
            record: 0,
            place: 0,
            parent: 0,
            children: 0,
        },
    }
}

// The state once record n has been entered: its kind is k, it stands from a up to e, and has so many children. The state is changed where
// it stands: made anew, its lists would be copied once more for each entry.
fn enter(
    t: &[u32],
    mut s: Filling,
    n: usize,
    k: usize,
    a: usize,
    e: usize,
    children: usize,
) -> Filling
    requires { (s.entries < n) × (k ≤ 32) × (a ≤ e) × (e + 1 < 2 ^ 64) }
    ensures { result ≡ entered (kinds_in t.now) s n a (e - a) k children }
{
    let own = s.entries + 1;
    let parent = parent_in(&s.last, layout::head_of(t, k), own);
    s.records = n;
    s.at = e + 1;
    s.entries = own;
    s.last[k] = own;
    s.entry = Entry {
        record: n,
        place: a,
        parent,
        children,
    };
    s
}

// Reads on to the next record that may have children, and enters it. Its children are counted from where the iterator then stands, which a
// `for` does not lend.
pub fn advance(t: &[u32], f: &[u8], s: Filling) -> Filling
    requires { (s.entries ≤ s.records) × (s.records ≤ s.at) }
    ensures { result ≡ advanced (kinds_in t.now) f.now s }
{
    let mut n = s.records;
    let mut records = RecordSpans { bytes: f, at: s.at };
    while let Some(record) = records.next() {
        n += 1;
        let k = fault::kind_of(t, BAR, record.of(f));
        if s.heads[k] {
            let children = children_from(t, f, records.at, k);
            return enter(t, s, n, k, record.start, record.end, children);
        }
    }
    s
}

// The answer by a table: the reader's refusal, 19 where there is no room for all entries, or how many records and entries there are.
#[tactic(auto, using(crate::proofs::Counts::reader_refused, crate::proofs::Counts::too_short, crate::proofs::Counts::has_room, crate::proofs::Counts::table_count))]
fn begin_by(t: &[u32], fixed: &[u8], f: &[u8], room: usize) -> Result<Filled, Refusal>
    ensures { result ≡ answer_by (layout_of t.now fixed.now) f.now room }
{
    let records = judge::judge_by(t, fixed, f)?;
    let heads = heads_of(t);
    let entries = count_entries(t, &heads, f);
    if room < entries {
        return Err(place::whole(19));
    }
    Ok(Filled { records, entries })
}

// The same for the flow that the words ask for, whose refusal comes first.
#[tactic(auto, using(crate::proofs::Counts::begun_refused, crate::proofs::Counts::begun_flow))]
pub fn begin(flow: &[u8], f: &[u8], room: usize) -> Result<Filled, Refusal>
    ensures { result ≡ answer_for (asked flow.now) f.now room }
{
    let table = flow::table_of(flow::find(flow)?);
    begin_by(&table.numbers, &table.fixed, f, room)
}

// The numbers of the table of the flow that the words ask for; noughts where they ask for none.
#[tactic(auto, using(crate::proofs::Tables::no_kinds, crate::proofs::Tables::flow_kinds))]
pub fn numbers_for(flow: &[u8]) -> [u32; 110]
    ensures { HasKinds (asked flow.now) (kinds_in result) }
{
    match flow::find(flow) {
        Err(_) => [0; 110],
        Ok(n) => flow::table_of(n).numbers,
    }
}

// Stores an entry in a list. A list of entries is reached by this function and `fetch` alone.
pub fn store(list: &mut [Entry], i: usize, e: Entry)
    requires { i < length list.old }
    ensures { list.new ≡ set list.old i e }
{
    list[i] = e;
}

// Fetches an entry from a list.
pub fn fetch(list: &[Entry], i: usize) -> Entry
    requires { i < length list.now }
    ensures { result ≡ entry_at list.now i }
{
    list[i]
}

// What a list that is lent for an index is made of: it has room for so many entries, and each is put in its place.
trait Slot: Sized {
    ghost room: { List Self → ℕ };

    ghost with_entry: { List Self → ℕ → Entry → List Self };

    // How many entries a list has room for.
    fn room(list: &[Self]) -> usize
        ensures { result ≡ room list.now };

    // Puts entry i, counted from 0, into a list.
    fn put(list: &mut [Self], i: usize, e: Entry)
        requires { i < room list.old }
        ensures { list.new ≡ with_entry list.old i e };

    ghost as_long: { (s : List Self) (i : ℕ) (e : Entry) → i < room s → room (with_entry s i e) ≡ room s };
}

// A list of entries.
impl Slot for Entry {
    ghost room = { λ s. length s };

    ghost with_entry = { λ s i e. set s i e };

    ghost as_long = { entries_as_long };

    fn room(list: &[Entry]) -> usize {
        list.len()
    }

    fn put(list: &mut [Entry], i: usize, e: Entry) {
        store(list, i, e);
    }
}

// Cells, four an entry; those that are no four at the end are not used.
impl Slot for u64 {
    ghost room = { λ s. length s / 4 };

    ghost with_entry = { with_numbers };

    ghost as_long = { numbers_as_long };

    fn room(cells: &[u64]) -> usize {
        cells.len() / 4
    }

    fn put(cells: &mut [u64], i: usize, e: Entry) {
        let at = 4 * i;
        cells[at..at + 4].copy_from_slice(&[
            e.record as u64,
            e.place as u64,
            e.parent as u64,
            e.children as u64,
        ]);
    }
}

// Stores the first n entries of a file's index.
fn store_first<T: Slot>(list: &mut [T], t: &[u32], f: &[u8], n: usize)
    requires { n ≤ T.room list.old }
    ensures { list.new ≡ storing T.with_entry (read (kinds_in t.now) f.now) n list.old }
{
    let mut s = start(t);
    for i in 0..n {
        s = advance(t, f, s);
        T::put(list, i, s.entry);
    }
}

// Fills a lent list with the index of a file for the flow that the words ask for; where that is refused, nothing is put.
#[tactic(auto, using(crate::proofs::Stored::none_filled, crate::proofs::Stored::flow_filled))]
fn fill_list<T: Slot>(flow: &[u8], f: &[u8], list: &mut [T]) -> Result<Filled, Refusal>
    ensures { FilledBy T.room T.with_entry (asked flow.now) f.now list.old list.new result }
{
    let table = flow::table_of(flow::find(flow)?);
    let filled = begin_by(&table.numbers, &table.fixed, f, T::room(list))?;
    store_first(list, &table.numbers, f, filled.entries);
    Ok(filled)
}

// Fills a lent list of entries with the index of a file for the flow that the words ask for. Any words, any bytes, any list.
pub fn fill(flow: &[u8], f: &[u8], list: &mut [Entry]) -> Result<Filled, Refusal>
    ensures { FilledRight (asked flow.now) f.now list.old list.new result }
{
    fill_list(flow, f, list)
}

// The same in numbers, four an entry, for callers who have no such struct.
pub fn fill_cells(flow: &[u8], f: &[u8], cells: &mut [u64]) -> Result<Filled, Refusal>
    ensures { CellsRight (asked flow.now) f.now cells.old cells.new result }
{
    fill_list(flow, f, cells)
}
