// The drill: spoils a good file, one byte at a time, and has each spoiled file judged.
#![tactic(auto)]

mod drill;

ghost use Rattle.std.specs.Prelude.{◌+◌, ◌≤◌, ◌<◌, ◌^◌, length};

use drill::{Plan, Tally};
use place::Refusal;
use std::rt::{Env, Files};
use stream::{Ending, Unwritten};

// Writes a word, a tab and a number on a line.
fn line(rt: &(impl Print + Eprint), word: &[u8], n: u64) -> Result<(), Unwritten> {
    stream::print(rt, word)?;
    stream::print(rt, b"\t")?;
    stream::print_number(rt, n)?;
    stream::print(rt, b"\n")
}

// Writes what the drill will do.
fn print_plan(rt: &(impl Print + Eprint), size: usize, plan: Plan) -> Result<(), Unwritten> {
    line(rt, b"bytes", size as u64)?;
    line(rt, b"step from place to place", plan.places as u64)?;
    line(rt, b"step from other byte to other byte", plan.bytes as u64)
}

// Writes what came of it.
fn print_tally(rt: &(impl Print + Eprint), tally: Tally) -> Result<(), Unwritten>
    requires { tally.refused + tally.passed < 2 ^ 63 }
{
    line(rt, b"spoiled", tally.refused + tally.passed)?;
    line(rt, b"refused", tally.refused)?;
    line(rt, b"passed", tally.passed)
}

// Says that a file is good, spoils it at each place that the plan names, and says what came of it.
fn run(
    rt: &(impl Print + Eprint),
    flow: &[u8],
    file: &mut [u8],
    records: usize,
) -> Result<Ending, Unwritten>
    requires { length file.old ≤ 1048576 }
{
    printing::print_numbers(rt, b"good", &[0, records, 0])?;
    let plan = drill::plan_for(file.len());
    print_plan(rt, file.len(), plan)?;
    let tally = drill::spoil_all(rt, flow, file, plan)?;
    print_tally(rt, tally)?;
    if 0 < tally.passed {
        return Ok(Ending::Refused);
    }
    Ok(Ending::Well)
}

// Says that a file is not good to begin with, and its refusal.
fn not_good(rt: &(impl Print + Eprint), r: Refusal) -> Result<Ending, Unwritten> {
    stream::print(rt, b"not good: ")?;
    printing::print_refusal(rt, r)?;
    Ok(Ending::Refused)
}

// The first line says whether the file is good to begin with. A good file is within the limit, so that the sums have room.
fn drill_file(
    rt: &(impl Print + Eprint),
    flow: &[u8],
    file: &mut [u8],
) -> Result<Ending, Unwritten> {
    match judge::judge(flow, file) {
        Ok(records) => run(rt, flow, file, records),
        Err(refusal) => not_good(rt, refusal),
    }
}

// drill FLOW FILE. FLOW goes to the judge as it stands: a name, or a name, a space and an edition.
fn start(rt: &(impl Env + Files + Print + Eprint), room: &mut [u8]) -> Ending {
    if stream::arg_count(rt) != 3 {
        stream::complain(rt, b"drill", b"usage: drill FLOW FILE");
        return Ending::Hindered;
    }
    let mut flow = io::large_buffer();
    let f = stream::arg(rt, 1, &mut flow);
    let mut path = io::large_buffer();
    let p = stream::arg(rt, 2, &mut path);
    let Some(n) = stream::load(rt, b"drill", &path[..p], room) else {
        return Ending::Hindered;
    };
    drill_file(rt, &flow[..f], &mut room[..n]).unwrap_or(Ending::Hindered)
}

// One byte more than a file may have, so that a file that is too long shows.
fn main(rt: HostRuntime) {
    let mut room = [0u8; 1048577];
    stream::end(&rt, start(&rt, &mut room));
}
