// The viewer: lends a list of eight entries for the index of stored files, as a caller in Rattle does. What is said of each file comes on
// a line, and where the list is filled its entries come behind, one a line; all is held to the file `stdout`.
#![tactic(auto)]

ghost use Rattle.std.specs.Prelude.{◌≡◌, ◌≤◌, replicate};
ghost use Rattle.index.specs.Entries.{listed, answer_for};
ghost use Rattle.flow.specs.Editions.{asked};
ghost use Rattle.index.specs.Code.{blank, to_store};

use index::{Entry, Filled};
use place::Refusal;
use printing::{Unwritten, print_numbers, print_refusal, print_row};

// Eight entries, lent as a list for the index of a file, and given back by value.
fn list_of(flow: &[u8], f: &[u8]) -> [Entry; 8]
    ensures { result ≡ listed (asked flow.now) f.now (replicate 8 blank) }
{
    let e = Entry {
        record: 0,
        place: 0,
        parent: 0,
        children: 0,
    };
    let mut list = [e; 8];
    let _said = index::fill(flow, f, &mut list);
    list
}

// What is said of a file and a list of eight entries, which then has no more entries of the file than it has room for.
fn answer_of(flow: &[u8], f: &[u8]) -> Result<Filled, Refusal>
    ensures { (result ≡ answer_for (asked flow.now) f.now 8) × (to_store result ≤ 8) }
{
    index::begin(flow, f, 8)
}

// Writes the first n entries of a list, a line each: record, place, parent's entry, children.
fn print_entries(rt: &(impl Print + Eprint), list: [Entry; 8], n: usize) -> Result<(), Unwritten>
    requires { n ≤ 8 }
{
    for e in &list[..n] {
        print_row(rt, e.record, &[e.place, e.parent, e.children])?;
    }
    Ok(())
}

// Writes what is said of a file, and its entries.
fn show(rt: &(impl Print + Eprint), flow: &[u8], f: &[u8]) -> Result<(), Unwritten> {
    match answer_of(flow, f) {
        Ok(filled) => {
            print_numbers(rt, b"ok", &[0, filled.records, filled.entries, 0])?;
            print_entries(rt, list_of(flow, f), filled.entries)
        }
        Err(refusal) => print_refusal(rt, refusal),
    }
}

fn main(rt: HostRuntime) {
    // Three GS7, the first with two SUP, the second with none, the third with one: six entries.
    let _ = show(
        &rt,
        b"P0181002",
        b"ZHD|P0181002|G|SVAA|Z|POOL|20240105120000\nGS7|_A\nSUP|AAAA\nBMU|2__AAAA0001|20240101||T\nBMU|2__AAAA0002|20240101||F\nSUP|BBBB\nBMU|2__BBBB0001|20240101|20240331|T\nGS7|_B\nGS7|_C\nSUP|AAAA\nBMU|2__AAAA0003|20240101||T\nZPT|12|139023189\n",
    );
    // Nine GS7: eight entries are no room for them.
    let _ = show(
        &rt,
        b"P0181002",
        b"ZHD|P0181002|G|SVAA|Z|POOL|20240105120000\nGS7|_A\nGS7|_B\nGS7|_C\nGS7|_D\nGS7|_E\nGS7|_F\nGS7|_G\nGS7|_H\nGS7|_J\nZPT|11|526209641\n",
    );
}
