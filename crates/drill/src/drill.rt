// A good file spoiled: one byte at a time is made another, the file is judged, and the byte is put back.
ghost use Rattle.std.specs.Prelude.{◌≡◌, ◌+◌, ◌*◌, ◌^◌, ◌≤◌, ◌<◌, length, IfOk};
ghost use Rattle.flow.specs.Editions.{asked};
ghost use Rattle.drill.specs.Drill.{passes, other as other_of, spoilt, Counted};

use stream::{Unwritten, tell, tell_number};

// Every how many places the file is spoiled, and by every how many of the other bytes.
#[derive(Clone, Copy)]
pub struct Plan {
    pub places: usize,
    pub bytes: usize,
}

// How many spoiled files were refused, and how many passed.
#[derive(Clone, Copy)]
pub struct Tally {
    pub refused: u64,
    pub passed: u64,
}

// Up to 2,048 bytes each place by all 255 other bytes; above that between 1,024 and 2,048 places,
// evenly spread, by 8 other bytes each.
pub fn plan_for(size: usize) -> Plan
    ensures { (0 < result.places) × (0 < result.bytes) }
{
    if size <= 2048 {
        return Plan {
            places: 1,
            bytes: 1,
        };
    }
    Plan {
        places: size / 1024,
        bytes: 32,
    }
}

fn accepts(flow: &[u8], file: &[u8]) -> bool
    ensures { result ≡ passes (asked flow.now) file.now }
{
    judge::judge(flow, file).is_ok()
}

// The byte that is d above b, past the highest counted on from 0.
fn other(b: u8, d: usize) -> u8
    ensures { result ≡ other_of b d }
{
    ((b as usize + d % 256) % 256) as u8
}

// Counts a spoiled file.
fn count(t: Tally, passed: bool) -> Tally
    requires { t.refused + t.passed < 2 ^ 63 }
    ensures { Counted t.refused t.passed passed result.refused result.passed }
{
    if passed {
        return Tally {
            refused: t.refused,
            passed: t.passed + 1,
        };
    }
    Tally {
        refused: t.refused + 1,
        passed: t.passed,
    }
}

// Spoils one place by one other byte, has the file judged, puts the byte back and counts the file; of one that passed it says at
// which place and by which byte.
fn spoil(
    rt: &(impl Print + Eprint),
    flow: &[u8],
    file: &mut [u8],
    at: usize,
    d: usize,
    t: Tally,
) -> Result<Tally, Unwritten>
    requires at_in_bounds { at < length file.old }
    requires passed_bound { t.refused + t.passed < 2 ^ 63 }
    ensures file_unchanged { file.new ≡ file.old }
    ensures counted { IfOk result (λ tally. Counted t.refused t.passed (passes (asked flow.now) (spoilt file.old at d)) tally.refused tally.passed) }
{
    let kept = file[at];
    let b = other(kept, d);
    file[at] = b;
    let passed = accepts(flow, file);
    file[at] = kept;
    if passed {
        printing::print_numbers(rt, b"PASSED", &[at, b as usize, 0])?;
    }
    Ok(count(t, passed))
}

// Spoils one place by the other bytes that the plan names.
fn spoil_place(
    rt: &(impl Print + Eprint),
    flow: &[u8],
    file: &mut [u8],
    at: usize,
    p: Plan,
    so_far: Tally,
) -> Result<Tally, Unwritten>
    requires at_in_bounds { at < length file.old }
    requires bytes_nonzero { 0 < p.bytes }
    requires so_far_bound { so_far.refused + so_far.passed < 2 ^ 62 }
    ensures file_unchanged { file.new ≡ file.old }
    ensures passed_bound { IfOk result (λ tally. tally.refused + tally.passed ≤ so_far.refused + so_far.passed + 255) }
{
    let mut t = so_far;
    for d in (1..256).step_by(p.bytes) {
        t = spoil(rt, flow, file, at, d, t)?;
    }
    Ok(t)
}

// Says on standard error how far the drill is, at every 64th place.
fn progress(rt: &impl Eprint, turn: usize, at: usize, size: usize) {
    if turn % 64 == 0 {
        tell(rt, b"drill: place ");
        tell_number(rt, at as u64);
        tell(rt, b" of ");
        tell_number(rt, size as u64);
        tell(rt, b"\n");
    }
}

// Spoils a good file at the places that the plan names; it fails where a file that passed can't be printed.
pub fn spoil_all(
    rt: &(impl Print + Eprint),
    flow: &[u8],
    file: &mut [u8],
    p: Plan,
) -> Result<Tally, Unwritten>
    requires places_nonzero { (0 < p.places) × (0 < p.bytes) }
    requires file_len_bound { length file.old ≤ 1048576 }
    ensures file_unchanged { file.new ≡ file.old }
    ensures passed_bound { IfOk result (λ tally. tally.refused + tally.passed ≤ 255 * length file.old) }
{
    let mut t = Tally {
        refused: 0,
        passed: 0,
    };
    let size = file.len();
    for at in (0..size).step_by(p.places) {
        progress(rt, at / p.places, at, size);
        t = spoil_place(rt, flow, file, at, p, t)?;
    }
    Ok(t)
}
