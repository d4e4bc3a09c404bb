// What is wrong with a stream, and where: said on standard error.
ghost use Rattle.std.specs.Prelude.{◌≡◌, ◌+◌, ◌%◌, ◌^◌};

use headers::Fault as HeaderFault;
use stream::{tell, tell_number, tell_shown};

// Which case it is, counted from 1, and the byte of the stream where its header starts, counted from 0.
#[derive(Clone, Copy)]
pub struct Place {
    pub case: u64,
    pub at: u64,
}

impl Place {
    // The place of the case behind one of so many bytes. No stream is so long that the numbers come round.
    pub fn past(self, bytes: usize) -> Place
        ensures { (result.case ≡ (self.case + 1) % 2 ^ 64) × (result.at ≡ (self.at + bytes) % 2 ^ 64) }
    {
        Place {
            case: self.case.wrapping_add(1),
            at: self.at.wrapping_add(bytes as u64),
        }
    }
}

// What is wrong with a case: it is cut short, or its header is too long or not one of ours.
#[derive(Clone, Copy)]
pub enum Fault {
    HeaderCut,
    FixedCut { stated: usize, came: usize },
    BodyCut { stated: usize, came: usize },
    HeaderLong,
    Header(HeaderFault),
}

// Says how many bytes of those that a header states came.
fn tell_cut(rt: &impl Eprint, what: &[u8], stated: usize, came: usize) {
    tell(rt, what);
    tell(rt, b" is cut short: of ");
    tell_number(rt, stated as u64);
    tell(rt, b" bytes ");
    tell_number(rt, came as u64);
    tell(rt, b" came");
}

// Says the name of a case, as much of it as a line can hold.
fn tell_name(rt: &impl Eprint, name: &[u8]) {
    tell(rt, b"`");
    tell_shown(rt, text::part(name, 0, 64));
    if 64 < name.len() {
        tell(rt, b"...");
    }
    tell(rt, b"`");
}

// Says that a header has not as many words as its case.
fn tell_words(rt: &impl Eprint, name: &[u8], right: usize, came: usize) {
    tell(rt, b"the header of a case ");
    tell_name(rt, name);
    tell(rt, b" has ");
    tell_number(rt, right as u64);
    tell(rt, b" words, and this one has ");
    tell_number(rt, came as u64);
}

// Says that a word of a header is no number, and its limit.
fn tell_limit(rt: &impl Eprint, word: &[u8], limit: &[u8]) {
    tell(rt, word);
    tell(rt, b" is not a whole number up to ");
    tell(rt, limit);
    tell(rt, b", of at most ten digits");
}

// Says what is wrong with the header of a case of this name.
fn tell_header(rt: &impl Eprint, fault: HeaderFault, name: &[u8]) {
    match fault {
        HeaderFault::CarriageReturn => tell(rt, b"the header ends in a carriage return"),
        HeaderFault::NoCase => {
            tell(rt, b"there is no case ");
            tell_name(rt, name);
        }
        HeaderFault::Words { right, came } => tell_words(rt, name, right, came),
        HeaderFault::Record => tell_limit(rt, b"RECORD", b"1,000,000,000"),
        HeaderFault::Field => tell_limit(rt, b"FIELD", b"1,000,000,000"),
        HeaderFault::Period => tell_limit(rt, b"PERIOD", b"1,000,000,000"),
        HeaderFault::Type => tell(rt, b"TYPE is no type in document 01's spelling"),
        HeaderFault::Mark => tell(rt, b"MARK is none of -, opt and ="),
        HeaderFault::Fixed => tell_limit(rt, b"FIXED", b"1,114,112"),
        HeaderFault::Room => tell_limit(rt, b"ROOM", b"1,114,112"),
        HeaderFault::Entries => tell_limit(rt, b"ROOM", b"8,192"),
        HeaderFault::Length => tell_limit(rt, b"LENGTH", b"1,114,112"),
    }
}

// Says what is wrong with a case of this name.
fn tell_fault(rt: &impl Eprint, fault: Fault, name: &[u8]) {
    match fault {
        Fault::HeaderCut => tell(rt, b"the stream ends before the line feed of the header"),
        Fault::FixedCut { stated, came } => tell_cut(rt, b"the fixed value", stated, came),
        Fault::BodyCut { stated, came } => tell_cut(rt, b"the body", stated, came),
        Fault::HeaderLong => tell(rt, b"the header is longer than 65,536 bytes"),
        Fault::Header(wrong) => tell_header(rt, wrong, name),
    }
}

// Says where a stream is broken and what is wrong with the case there.
pub fn tell_broken(rt: &impl Eprint, place: Place, fault: Fault, name: &[u8]) {
    tell(rt, b"nightly: case ");
    tell_number(rt, place.case);
    tell(rt, b", at byte ");
    tell_number(rt, place.at);
    tell(rt, b" of the stream: ");
    tell_fault(rt, fault, name);
    tell(rt, b"\n");
}
