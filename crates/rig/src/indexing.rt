// index FLOW FILE: the index of a file, a line an entry. No list is lent: each entry is printed as it is read.
use crate::arguments::{Hindered, load_word};
use crate::judging::refuse;
use printing::{print_numbers, print_row};
use record::BAR;
use std::rt::{Env, Files};
use stream::{Ending, Unwritten};

// Prints the first n entries of a file's index.
fn print_entries(
    rt: &(impl Print + Eprint),
    t: &[u32],
    file: &[u8],
    n: usize,
) -> Result<(), Unwritten> {
    let mut s = index::start(t);
    for _i in 0..n {
        s = index::advance(t, file, s);
        let e = s.entry;
        print_row(rt, e.record, &[e.place, e.parent, e.children])?;
    }
    Ok(())
}

// Prints the index of a file. A file has no more entries than bytes, so that with this room none is refused for want of it.
fn index_in(rt: &(impl Print + Eprint), flow: &[u8], file: &[u8]) -> Result<Ending, Hindered> {
    match index::begin(flow, file, file.len()) {
        Err(r) => refuse(rt, flow, BAR, file, r),
        Ok(filled) => {
            let t = index::numbers_for(flow);
            print_numbers(rt, b"ok", &[0, filled.records, filled.entries, 0])?;
            print_entries(rt, &t, file, filled.entries)?;
            Ok(Ending::Well)
        }
    }
}

// index FLOW FILE
pub fn index_of(
    rt: &(impl Env + Files + Print + Eprint),
    room: &mut [u8],
) -> Result<Ending, Hindered> {
    let size = load_word(rt, 3, room)?;
    let mut flow = io::large_buffer();
    let f = stream::arg(rt, 2, &mut flow);
    index_in(rt, &flow[..f], &room[..size])
}
