// judge FLOW FILE..: files judged for a flow.
ghost use Rattle.std.specs.Prelude.{◌≡◌, ◌+◌, ◌^◌, ◌<◌, IfOk};
ghost use Rattle.pointing.specs.Shown.{Placed};
ghost use Rattle.rig.specs.Tally.{counted_of, ending_of};

use crate::arguments::Hindered;
use place::Refusal;
use printing::print_accepted;
use record::BAR;
use std::rt::{Env, Files};
use stream::{Ending, Unwritten, print, print_number};

// What came of one file.
#[derive(Clone, Copy)]
pub enum Outcome {
    Accepted,
    Refused,
    Unread,
}

// How many files were accepted, refused and not read.
#[derive(Clone, Copy)]
pub struct Tally {
    pub accepted: usize,
    pub refused: usize,
    pub unread: usize,
}

// Prints a refusal of a file or a sheet, the sentence on it, and the byte that it points at.
pub fn print_refusal(
    rt: &(impl Print + Eprint),
    flow: &[u8],
    sep: u8,
    file: &[u8],
    r: Refusal,
) -> Result<(), Unwritten>
    requires { Placed sep file.now r }
{
    printing::print_refusal(rt, r)?;
    sentences::about_file(rt, flow, sep, file, r)?;
    pointing::point(rt, sep, file, r)
}

// Ends a command with a refusal of a file or a sheet.
pub fn refuse(
    rt: &(impl Print + Eprint),
    flow: &[u8],
    sep: u8,
    file: &[u8],
    r: Refusal,
) -> Result<Ending, Hindered>
    requires { Placed sep file.now r }
{
    print_refusal(rt, flow, sep, file, r)?;
    Ok(Ending::Refused)
}

// Judges the bytes of a file and prints the answer.
fn judge_bytes(rt: &(impl Print + Eprint), flow: &[u8], file: &[u8]) -> Result<Outcome, Unwritten> {
    match judge::judge(flow, file) {
        Ok(records) => {
            print_accepted(rt, records)?;
            Ok(Outcome::Accepted)
        }
        Err(r) => {
            print_refusal(rt, flow, BAR, file, r)?;
            Ok(Outcome::Refused)
        }
    }
}

// Prints a file's name in front of its answer.
fn print_name(rt: &(impl Print + Eprint), path: &[u8]) -> Result<(), Unwritten> {
    stream::print_shown(rt, path)?;
    print(rt, b"\t")
}

// Judges the file that word i names; its name stands in front of the answer where it is asked.
fn judge_word(
    rt: &(impl Env + Files + Print + Eprint),
    flow: &[u8],
    i: usize,
    named: bool,
    room: &mut [u8],
) -> Result<Outcome, Unwritten> {
    let mut path = io::large_buffer();
    let n = stream::arg(rt, i, &mut path);
    let Some(size) = stream::load(rt, b"rig", &path[..n], room) else {
        return Ok(Outcome::Unread);
    };
    if named {
        print_name(rt, &path[..n])?;
    }
    judge_bytes(rt, flow, &room[..size])
}

// The tally with one file more.
fn counted(t: Tally, o: Outcome) -> Tally
    requires { t.accepted + t.refused + t.unread + 1 < 2 ^ 64 }
    ensures { result ≡ counted_of t o }
{
    match o {
        Outcome::Accepted => Tally {
            accepted: t.accepted + 1,
            ..t
        },
        Outcome::Refused => Tally {
            refused: t.refused + 1,
            ..t
        },
        Outcome::Unread => Tally {
            unread: t.unread + 1,
            ..t
        },
    }
}

// How many files were not read, where some were not.
fn print_unread(rt: &(impl Print + Eprint), unread: usize) -> Result<(), Unwritten> {
    if unread == 0 {
        return Ok(());
    }
    print(rt, b", ")?;
    print_number(rt, unread as u64)?;
    print(rt, b" not read")
}

// Prints the last line of a run over many files.
fn print_tally(rt: &(impl Print + Eprint), files: usize, t: Tally) -> Result<(), Unwritten> {
    print_number(rt, files as u64)?;
    print(rt, b" files, ")?;
    print_number(rt, t.accepted as u64)?;
    print(rt, b" accepted, ")?;
    print_number(rt, t.refused as u64)?;
    print(rt, b" refused")?;
    print_unread(rt, t.unread)?;
    print(rt, b"\n")
}

// How a run over many files ends: an answer that was not written weighs most, then a file that was not read, then one refused.
fn ending_of(run: Result<Tally, Unwritten>) -> Ending
    ensures { result ≡ ending_of run }
{
    let Ok(t) = run else {
        return Ending::Hindered;
    };
    if 0 < t.unread {
        return Ending::Hindered;
    }
    if 0 < t.refused {
        return Ending::Refused;
    }
    Ending::Well
}

// Judges the files that the words from 3 on name, up to an answer that can't be written.
fn judge_all(
    rt: &(impl Env + Files + Print + Eprint),
    flow: &[u8],
    count: usize,
    named: bool,
    room: &mut [u8],
) -> Result<Tally, Unwritten>
    requires { 3 < count }
    ensures { IfOk result (λ t. t.accepted + t.refused + t.unread + 3 ≡ count) }
{
    let mut t = Tally {
        accepted: 0,
        refused: 0,
        unread: 0,
    };
    for i in 3..count {
        t = counted(t, judge_word(rt, flow, i, named, room)?);
    }
    Ok(t)
}

// The same with each file's name before its answer, and a tally.
fn judge_named(
    rt: &(impl Env + Files + Print + Eprint),
    flow: &[u8],
    count: usize,
    room: &mut [u8],
) -> Result<Tally, Unwritten>
    requires { 3 < count }
{
    let t = judge_all(rt, flow, count, true, room)?;
    print_tally(rt, count - 3, t)?;
    Ok(t)
}

// judge FLOW FILE, and for more than one file each name before its answer, and a tally.
pub fn judge_files(
    rt: &(impl Env + Files + Print + Eprint),
    count: usize,
    room: &mut [u8],
) -> Ending
    requires { 3 < count }
{
    let mut flow = io::large_buffer();
    let f = stream::arg(rt, 2, &mut flow);
    if count == 4 {
        return ending_of(judge_all(rt, &flow[..f], count, false, room));
    }
    ending_of(judge_named(rt, &flow[..f], count, room))
}
