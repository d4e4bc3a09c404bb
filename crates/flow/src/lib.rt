// The flows as constant tables, which of them a caller's words ask for, and the step of the flow table.
#![tactic(auto)]

mod tables;

ghost use Rattle.std.specs.Prelude.{◌≡◌, ℕ, ◌+◌, ◌*◌, ◌≤◌, ◌<◌, List, MatchOption, length};
ghost use Rattle.text.specs.Rules.{must};
ghost use Rattle.place.specs.Places.{whole};
ghost use Rattle.layout.specs.Layout.{may_follow};
ghost use Rattle.layout.specs.Numbers.{layout_of, name_of, row_word};
ghost use Rattle.flow.specs.Publication.{layout_for};
ghost use Rattle.flow.specs.Flows.{flow_number, flow_at, p0133_in_711};
ghost use Rattle.flow.specs.Editions.{no_flow, a_flow, is_edition, number_in, asked, told};
ghost use Rattle.flow.specs.ByTable.{walk_by, followers_by, PutIf, SteppedBy};
ghost use Rattle.flow.specs.Step.{kinds_in, Lists, StepRight};

use place::Refusal;

// A flow as data: its numbers, and the bytes of its fixed values. To be copied once into locals and lent.
#[derive(Clone, Copy)]
pub struct Table {
    pub numbers: [u32; 110],
    pub fixed: [u8; 16],
}

// The edition that is used where none is named.
const USUAL: [u8; 3] = *b"533";

// The number of the flow of this name, from 1. A `match` on the six names leaves a goal to prove for each of their bytes.
fn number_of(name: &[u8]) -> Option<usize>
    ensures { MatchOption result (flow_number name.now ≡ 0) (λ n. (n ≡ flow_number name.now) × (0 < n)) }
{
    if text::same_bytes(b"P0012001", name) {
        return Some(1);
    }
    if text::same_bytes(b"P0181002", name) {
        return Some(2);
    }
    if text::same_bytes(b"P0133001", name) {
        return Some(3);
    }
    if text::same_bytes(b"P0134001", name) {
        return Some(4);
    }
    if text::same_bytes(b"P0138001", name) {
        return Some(5);
    }
    if text::same_bytes(b"P0164001", name) {
        return Some(6);
    }
    None
}

// Flow number n in an edition: 21 where there is no such edition. Only P0133001, number 3, has a layout of its own in 711.
fn in_edition(n: usize, edition: &[u8]) -> Result<usize, Refusal>
    ensures { told result ≡ must (is_edition edition.now) (no_flow (whole 21)) (a_flow (flow_at (number_in edition.now n))) }
{
    match edition {
        b"711" => Ok(if n == 3 { 7 } else { n }),
        b"533" => Ok(n),
        _ => Err(place::whole(21)),
    }
}

// The number of the flow that a caller's words ask for: a flow's name of eight characters, or these, a space and an edition. 1, then 21.
pub fn find(words: &[u8]) -> Result<usize, Refusal>
    ensures { told result ≡ asked words.now }
{
    if words.len() < 8 {
        return Err(place::whole(1));
    }
    let (name, behind) = words.split_at(8);
    let Some(n) = number_of(name) else {
        return Err(place::whole(1));
    };
    match behind {
        [] => in_edition(n, &USUAL),
        [b' ', edition @ ..] => in_edition(n, edition),
        _ => Err(place::whole(1)),
    }
}

// P0133001 in edition 711: SB1 has the rules of 533 from the second on, that is all but the market sector's.
fn p0133_in_711() -> Table
    ensures { layout_of result.numbers result.fixed ≡ layout_for p0133_in_711 }
{
    let mut numbers = tables::P0133;
    numbers[tables::SB1_RULES] += 3;
    numbers[tables::SB1_RULES + 1] -= 1;
    Table {
        numbers: numbers,
        fixed: tables::P0133_FIXED,
    }
}

// The table of flow number n; any number has one, so that a flow is no enum.
pub fn table_of(n: usize) -> Table
    ensures { layout_of result.numbers result.fixed ≡ layout_for (flow_at n) }
{
    match n {
        2 => Table {
            numbers: tables::P0181,
            fixed: tables::P0181_FIXED,
        },
        3 => Table {
            numbers: tables::P0133,
            fixed: tables::P0133_FIXED,
        },
        4 => Table {
            numbers: tables::P0134,
            fixed: tables::P0134_FIXED,
        },
        5 => Table {
            numbers: tables::P0138,
            fixed: tables::P0138_FIXED,
        },
        6 => Table {
            numbers: tables::P0164,
            fixed: tables::P0164_FIXED,
        },
        7 => p0133_in_711(),
        _ => Table {
            numbers: tables::P0012,
            fixed: tables::P0012_FIXED,
        },
    }
}

// Walks a list of kinds, three bytes each, by a table's followers: to the last row, or to the place, from 1, where it stopped. A kind cut
// short is no kind's name.
fn walk(t: &[u32], kinds: &[u8]) -> Result<usize, usize>
    ensures { (fixed : List ℕ) → result ≡ walk_by (layout_of t.now fixed) (kinds_in kinds.now) }
{
    let mut last = 0;
    for passed in 0..kinds.len().div_ceil(3) {
        let k = layout::kind_named(t, text::part(kinds, 3 * passed, 3));
        if k == 0 || !layout::may_follow(t, last, k) {
            return Err(passed + 1);
        }
        last = k;
    }
    Ok(last)
}

// Where kind k may follow kind last, writes its name behind the names written so far, and counts it.
fn put_follower(t: &[u32], last: usize, k: usize, count: usize, out: &mut [u8]) -> usize
    requires { 3 * count + 3 ≤ length out.old }
    ensures { (fixed : List ℕ) → PutIf (may_follow (layout_of t.now fixed) last k) (name_of (row_word t.now k 0)) count result out.old out.new }
{
    if !layout::may_follow(t, last, k) {
        return count;
    }
    let name = layout::name_of(t, k);
    let at = 3 * count;
    out[at] = name[0];
    out[at + 1] = name[1];
    out[at + 2] = name[2];
    count + 1
}

// Writes the names of the kinds that may follow kind last, end to end, and counts them.
fn put_followers(t: &[u32], last: usize, out: &mut [u8]) -> usize
    requires { 96 ≤ length out.old }
    ensures { (fixed : List ℕ) → Lists (followers_by (layout_of t.now fixed) last) result out.old out.new }
{
    let mut count = 0;
    for k in 1..layout::row_count(t) {
        count = put_follower(t, last, k, count, out);
    }
    count
}

// A list of kinds that went through: how many kinds may follow, and if it is complete.
#[derive(Clone, Copy, PartialEq, Eq)]
pub struct Through {
    pub count: usize,
    pub complete: bool,
}

// Why a list of kinds did not go through: what was asked for is refused, or the list stopped at a place, from 1.
#[derive(Clone, Copy, PartialEq, Eq)]
pub enum NoStep {
    Refused(Refusal),
    Stopped(usize),
}

impl From<Refusal> for NoStep {
    ghost use Rattle.flow.specs.declared.NoStep.TheVariants.{Refused};

    ghost from_gives = { λ refusal answer. answer ≡ Refused refusal };

    fn from(refusal: Refusal) -> NoStep {
        NoStep::Refused(refusal)
    }
}

// Steps a table through kinds, three bytes each, end to end. The names of the kinds that may follow go to the front of the
// lent bytes, which have room for the most kinds that a table can hold.
fn step_by(t: &[u32], kinds: &[u8], follow: &mut [u8; 96]) -> Result<Through, usize>
    ensures { (fixed : List ℕ) → SteppedBy (layout_of t.now fixed) kinds.now result follow.old follow.new }
{
    let last = walk(t, kinds)?;
    let count = put_followers(t, last, follow);
    Ok(Through {
        count,
        complete: layout::is_footer(t, last),
    })
}

// Steps the table of the flow that the words ask for. Any words, any kinds.
pub fn step(flow: &[u8], kinds: &[u8], follow: &mut [u8; 96]) -> Result<Through, NoStep>
    ensures { StepRight (asked flow.now) kinds.now result follow.old follow.new }
{
    let t = table_of(find(flow)?).numbers;
    step_by(&t, kinds, follow).map_err(NoStep::Stopped)
}
