// write FLOW SHEET OUT, read FLOW FILE OUT, export FLOW FILE OUT, import TEXT OUT: a new file, whole or not there at all.
ghost use Rattle.pointing.specs.Shown.{Placed};
ghost use Rattle.rfc4180.specs.Rfc.{comma};
ghost use Rattle.rig.specs.Placed.{PlacedIn, AnswersPlaced};

use crate::arguments::{Hindered, load_word};
use crate::judging::refuse;
use place::Refusal;
use printing::print_numbers;
use record::{BAR, TAB};
use rfc4180::COMMA;
use sheet::Transferred;
use std::fs::OpenFile;
use std::io::Write;
use std::rt::{Env, Files};
use stream::{Ending, Unwritten};

// Fills a new file; all of it is then on the disk.
fn fill(file: &mut (impl Write + OpenFile), bytes: &[u8]) -> std::io::Result<()> {
    stream::write_whole(file, bytes)?;
    file.sync_all()
}

// Keeps bytes as a new file. Where that can't be done it is said, and nothing is left behind.
fn store(rt: &(impl Files + Eprint), path: &[u8], bytes: &[u8]) -> Result<(), Hindered> {
    let mut file = stream::create(rt, path).map_err(|e| {
        stream::complain_of(rt, b"rig", b"make", path, e);
        Hindered
    })?;
    fill(&mut file, bytes).map_err(|e| {
        stream::complain_of(rt, b"rig", b"write", path, e);
        stream::remove(rt, path);
        Hindered
    })
}

// Keeps what was made as the file that word i names.
fn store_word(rt: &(impl Env + Files + Eprint), i: usize, bytes: &[u8]) -> Result<(), Hindered> {
    let mut path = io::large_buffer();
    let n = stream::arg(rt, i, &mut path);
    store(rt, &path[..n], bytes)
}

// Keeps the first bytes of the room as the file that word i names, and prints how many records and bytes that are.
fn keep_made(
    rt: &(impl Env + Files + Print + Eprint),
    i: usize,
    out: &[u8],
    made: Transferred,
) -> Result<Ending, Hindered> {
    store_word(rt, i, text::part(out, 0, made.bytes))?;
    print_numbers(rt, b"ok", &[0, made.records, made.bytes, 0])?;
    Ok(Ending::Well)
}

// Keeps what was made, or refuses what it was to be made from.
fn keep(
    rt: &(impl Env + Files + Print + Eprint),
    flow: &[u8],
    sep: u8,
    given: &[u8],
    out: &[u8],
    made: Result<Transferred, Refusal>,
) -> Result<Ending, Hindered>
    requires { PlacedIn sep given.now made }
{
    match made {
        Ok(made) => keep_made(rt, 4, out, made),
        Err(r) => refuse(rt, flow, sep, given, r),
    }
}

// Makes what is asked of a file or a sheet, and keeps it. Its fields are parted by `sep`, so that a refusal points into it.
fn make_and_keep<F: FnOnce(&[u8], &[u8], &mut [u8]) -> Result<Transferred, Refusal>>(
    rt: &(impl Env + Files + Print + Eprint),
    make: F,
    sep: u8,
    flow: &[u8],
    given: &[u8],
    out: &mut [u8],
) -> Result<Ending, Hindered>
    requires callable { F.IsAlwaysCallable make }
    requires placed { AnswersPlaced sep (F.post make) }
{
    let made = make(flow, given, out);
    keep(rt, flow, sep, given, out, made)
}

// Makes what the flow of word 2 asks. A text has at most three bytes for each byte of a file, and all else fewer: none is refused
// for want of room.
fn make_from<F: FnOnce(&[u8], &[u8], &mut [u8]) -> Result<Transferred, Refusal>>(
    rt: &(impl Env + Files + Print + Eprint),
    make: F,
    sep: u8,
    given: &[u8],
) -> Result<Ending, Hindered>
    requires callable { F.IsAlwaysCallable make }
    requires placed { AnswersPlaced sep (F.post make) }
{
    let mut flow = io::large_buffer();
    let f = stream::arg(rt, 2, &mut flow);
    let mut out = [0u8; 3145728];
    make_and_keep(rt, make, sep, &flow[..f], given, &mut out)
}

// Makes what is asked of the file or sheet that word 3 names.
fn make_by<F: FnOnce(&[u8], &[u8], &mut [u8]) -> Result<Transferred, Refusal>>(
    rt: &(impl Env + Files + Print + Eprint),
    make: F,
    sep: u8,
    room: &mut [u8],
) -> Result<Ending, Hindered>
    requires callable { F.IsAlwaysCallable make }
    requires placed { AnswersPlaced sep (F.post make) }
{
    let size = load_word(rt, 3, room)?;
    make_from(rt, make, sep, &room[..size])
}

// write FLOW SHEET OUT
pub fn write_file(
    rt: &(impl Env + Files + Print + Eprint),
    room: &mut [u8],
) -> Result<Ending, Hindered> {
    make_by(rt, sheet::write, TAB, room)
}

// read FLOW FILE OUT
pub fn read_file(
    rt: &(impl Env + Files + Print + Eprint),
    room: &mut [u8],
) -> Result<Ending, Hindered> {
    make_by(rt, sheet::read, BAR, room)
}

// export FLOW FILE OUT
pub fn export_file(
    rt: &(impl Env + Files + Print + Eprint),
    room: &mut [u8],
) -> Result<Ending, Hindered> {
    make_by(rt, csv_text::export, BAR, room)
}

// Prints a refusal of a comma-separated text, the sentence on it, and the byte that it points at.
fn print_text_refusal(rt: &(impl Print + Eprint), text: &[u8], r: Refusal) -> Result<(), Unwritten>
    requires { Placed comma text.now r }
{
    printing::print_refusal(rt, r)?;
    commas::say_line(rt, r.record)?;
    sentences::rule(rt, r.number)?;
    commas::say_details(rt, text, r)?;
    stream::print(rt, b".\n")?;
    pointing::point(rt, COMMA, text, r)
}

// Keeps the sheet that was made, or refuses the text.
fn keep_sheet(
    rt: &(impl Env + Files + Print + Eprint),
    text: &[u8],
    out: &[u8],
    made: Result<Transferred, Refusal>,
) -> Result<Ending, Hindered>
    requires { PlacedIn comma text.now made }
{
    match made {
        Ok(made) => keep_made(rt, 3, out, made),
        Err(r) => {
            print_text_refusal(rt, text, r)?;
            Ok(Ending::Refused)
        }
    }
}

// Makes a sheet of a text, and keeps it.
fn import_and_keep(
    rt: &(impl Env + Files + Print + Eprint),
    text: &[u8],
    out: &mut [u8],
) -> Result<Ending, Hindered> {
    let made = csv_text::import(text, out);
    keep_sheet(rt, text, out, made)
}

// A sheet has at most one byte more than its text, and at most 1,048,000: none is refused for want of room.
fn import_from(rt: &(impl Env + Files + Print + Eprint), text: &[u8]) -> Result<Ending, Hindered> {
    let mut out = [0u8; 1048001];
    import_and_keep(rt, text, &mut out)
}

// import TEXT OUT
pub fn import_text(
    rt: &(impl Env + Files + Print + Eprint),
    room: &mut [u8],
) -> Result<Ending, Hindered> {
    let size = load_word(rt, 2, room)?;
    import_from(rt, &room[..size])
}
