// The answer to an index case: a line, and a line for each entry. The list is lent as cells, four an entry, as callers in C lend it.
ghost use Rattle.std.specs.Prelude.{◌+◌, ◌*◌, ◌≤◌, length};
ghost use Rattle.nightly.specs.Listed.{StandIn};

use crate::room::{fill, kept};
use index::Filled;
use place::Refusal;
use printing::{print_numbers, print_row};
use stream::Unwritten;

// Prints the entry whose four numbers stand from a place on.
fn print_entry(rt: &(impl Print + Eprint), cells: &[u64], at: usize) -> Result<(), Unwritten>
    requires { at + 4 ≤ length cells.now }
{
    print_row(
        rt,
        cells[at] as usize,
        &[
            cells[at + 1] as usize,
            cells[at + 2] as usize,
            cells[at + 3] as usize,
        ],
    )
}

// Prints so many entries, a line each.
fn print_entries(rt: &(impl Print + Eprint), cells: &[u64], entries: usize) -> Result<(), Unwritten>
    requires { 4 * entries ≤ length cells.now }
{
    for i in 0..entries {
        print_entry(rt, cells, 4 * i)?;
    }
    Ok(())
}

// Prints what is said of an index in some cells, and its entries. All cells past them must keep their pattern.
fn print_index(
    rt: &(impl Print + Eprint),
    said: Result<Filled, Refusal>,
    cells: &[u64],
) -> Result<(), Unwritten>
    requires { StandIn cells.now said }
{
    match said {
        Err(r) => print_numbers(
            rt,
            b"refused",
            &[
                r.number,
                r.record,
                r.field,
                r.place,
                kept(cells, 0) as usize,
            ],
        ),
        Ok(Filled { records, entries }) => {
            print_numbers(
                rt,
                b"ok",
                &[0, records, entries, 0, kept(cells, 4 * entries) as usize],
            )?;
            print_entries(rt, cells, entries)
        }
    }
}

// Lends the first of some cells, room for so many entries, and prints what came of it. The cells behind them were not lent.
fn index_in(
    rt: &(impl Print + Eprint),
    flow: &[u8],
    file: &[u8],
    room: usize,
    cells: &mut [u64],
) -> Result<(), Unwritten>
    requires { 4 * room ≤ length cells.old }
{
    fill(cells);
    let end = 4 * room;
    let said = index::fill_cells(flow, file, &mut cells[0..end]);
    print_index(rt, said, cells)
}

// An index of a file, with room for so many entries, at most 8,192.
pub fn index_line(
    rt: &(impl Print + Eprint),
    flow: &[u8],
    file: &[u8],
    room: usize,
) -> Result<(), Unwritten> {
    let mut cells = [0u64; 32768];
    index_in(rt, flow, file, room.min(8192), &mut cells)
}
