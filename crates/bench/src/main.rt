// The bench: judges one file on standard input, and prints the verdict on one line.
#![tactic(auto)]

ghost use Rattle.std.specs.Prelude.{◌≡◌};
ghost use Rattle.judge.specs.File.{paper};
ghost use Rattle.bench.specs.Bench.{benched};

use place::Refusal;
use stream::{Ending, Unwritten};

// Judges the input: a line whose words ask for a flow, then the file, at most 65,536 bytes of it.
fn answer(input: &[u8]) -> Result<usize, Refusal>
    ensures { paper result ≡ benched input.now }
{
    let Some(line) = record::record_at(input, 1) else {
        return Err(place::whole(1));
    };
    if line.end == input.len() {
        return Err(place::whole(1));
    }
    let words = line.of(input);
    flow::find(words)?;
    let file = &input[line.end + 1..];
    if 65536 < file.len() {
        return Err(place::whole(2));
    }
    judge::judge(words, file)
}

// Prints what is said of the file: the run ends well where it is accepted.
fn give(rt: &(impl Print + Eprint), judged: Result<usize, Refusal>) -> Result<Ending, Unwritten> {
    printing::print_judged(rt, judged)?;
    Ok(match judged {
        Ok(_) => Ending::Well,
        Err(_) => Ending::Refused,
    })
}

// Reads the longest first line that asks for a flow, 12 bytes and a line feed, and one byte of file more than is taken, so that a
// file that is too long shows.
fn main(rt: HostRuntime) {
    let mut input = [0u8; 65550];
    let Some(n) = stream::load_input(&rt, b"bench", &mut input) else {
        return stream::end(&rt, Ending::Hindered);
    };
    stream::end(
        &rt,
        give(&rt, answer(&input[..n])).unwrap_or(Ending::Hindered),
    );
}
