// Which command a call is of. Counts of words have the program's own name among them.
use crate::arguments::{Hindered, all_fit, hinder};
use crate::{asking, indexing, judging, making};
use std::rt::{Env, Files};
use stream::Ending;

// Says how the rig is called.
fn usage(rt: &impl Eprint) -> Hindered {
    stream::tell(
        rt,
        b"rig: no such command, or too few or too many words\nusage:\n  rig judge FLOW FILE..\n  rig write FLOW SHEET OUT [--over]\n  rig read FLOW FILE OUT [--over]\n  rig export FLOW FILE OUT [--over]\n  rig import TEXT OUT [--over]\n  rig value FLOW FILE RECORD FIELD\n  rig period FLOW FILE PERIOD\n  rig index FLOW FILE\n  rig field TYPE [MARK] BYTES     as: rig field 'dec(4,1)' opt 5.0, rig field 'text(1)' =Z Z\n  rig sum FILE\n  rig step FLOW KINDS             as: rig step P0138001 ZHDSUB\n  rig explain NUMBER\nFLOW is a flow's name, or in one word its name, a space and an edition, 533 or 711 (none is 533), as: rig judge 'P0133001 711' FILE\n",
    );
    Hindered
}

// Any command; `judge` reads any number of files.
fn command(
    rt: &(impl Env + Files + Print + Eprint),
    name: &[u8],
    count: usize,
    room: &mut [u8],
) -> Result<Ending, Hindered> {
    match (name, count) {
        (b"judge", 4..) => Ok(judging::judge_files(rt, count, room)),
        (b"write", 5) => making::write_file(rt, room),
        (b"read", 5) => making::read_file(rt, room),
        (b"export", 5) => making::export_file(rt, room),
        (b"import", 4) => making::import_text(rt, room),
        (b"value", 6) => asking::value_of(rt, room),
        (b"period", 5) => asking::period_of(rt, room),
        (b"index", 4) => indexing::index_of(rt, room),
        (b"sum", 3) => asking::sum_of(rt, room),
        (b"field", 4) => asking::bare_field(rt),
        (b"field", 5) => asking::marked_field(rt),
        (b"step", 4) => asking::step_words(rt),
        (b"explain", 3) => asking::explain_word(rt),
        _ => Err(usage(rt)),
    }
}

// The call that the program's words make.
pub fn run(rt: &(impl Env + Files + Print + Eprint), room: &mut [u8]) -> Result<Ending, Hindered> {
    let count = stream::arg_count(rt);
    if !all_fit(rt, count) {
        return Err(hinder(rt, b"a word has more than 65,536 bytes"));
    }
    let mut name = io::large_buffer();
    let n = stream::arg(rt, 1, &mut name);
    command(rt, &name[..n], count, room)
}
