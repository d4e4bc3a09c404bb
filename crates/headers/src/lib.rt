// The header line of a case in a stream: words parted by tabs, the first of which says what the others are.
#![tactic(auto)]

ghost use Rattle.std.specs.Prelude.{◌≡◌, ◌≢◌, ◌≤◌, Some, None, Err, MatchResult, length};
ghost use Rattle.record.specs.Records.{fields};
ghost use Rattle.words.specs.Spelling.{number_of};
ghost use Rattle.headers.specs.Headers.{word_of, wrong_words, case_of, plain_of, value_of, period_of, making_of, index_of, field_of, case_named, header_of};

use field::{FieldType, Mark};
use record::TAB;

// The greatest LENGTH, FIXED and ROOM for bytes, so that files over the limit can be tried.
const LENGTH_LIMIT: usize = 1114112;

// The greatest RECORD, FIELD and PERIOD.
const ASKED_LIMIT: usize = 1000000000;

// The greatest ROOM for entries of an index.
const ENTRIES_LIMIT: usize = 8192;

// What is made in the room of a case: a file from a sheet, a sheet from a file, a text from a file, a sheet from a text.
#[derive(Clone, Copy, Debug, PartialEq, Eq)]
pub enum Making {
    Write,
    Read,
    Export,
    Import,
}

// What a case asks, beside the flow in its header and the bytes behind it.
#[derive(Clone, Copy)]
pub enum Ask {
    Judge,
    Value { record: usize, field: usize },
    Period { period: usize },
    Field { form: FieldType, mark: Mark },
    Sum,
    Step,
    Make { making: Making, room: usize },
    Index { room: usize },
}

// What is asked, how many bytes of fixed value and how many of body are behind the header.
#[derive(Clone, Copy)]
pub struct Case {
    pub ask: Ask,
    pub fixed: usize,
    pub length: usize,
}

// What is wrong with a header: its end, its first word, how many words it has, or one of them.
#[derive(Clone, Copy, Debug, PartialEq, Eq)]
pub enum Fault {
    CarriageReturn,
    NoCase,
    Words { right: usize, came: usize },
    Record,
    Field,
    Period,
    Type,
    Mark,
    Fixed,
    Room,
    Entries,
    Length,
}

// Word k of a header, counted from 1.
pub fn word<'a>(header: &'a [u8], k: usize) -> &'a [u8]
    ensures { result.now ≡ word_of k header.now }
{
    words::part(TAB, header, k)
}

// The number in word k of a header, up to a limit, or the fault of that word.
fn number_in(header: &[u8], k: usize, limit: usize, fault: Fault) -> Result<usize, Fault>
    ensures { MatchResult result (λ n. number_of 10 limit (word_of k header.now) ≡ Some n) (λ e. (number_of 10 limit (word_of k header.now) ≡ None) × (e ≡ fault)) }
{
    words::read_number(word(header, k), 10, limit).ok_or(fault)
}

// A header has so many words.
fn count_words(right: usize, header: &[u8]) -> Result<(), Fault>
    ensures { MatchResult result (λ _. length (fields 0x09 header.now) ≡ right) (λ e. (length (fields 0x09 header.now) ≢ right) × (Err e ≡ wrong_words right header.now)) }
{
    let came = record::count_fields(TAB, header);
    if came != right {
        return Err(Fault::Words { right, came });
    }
    Ok(())
}

// A case with the body's length in its last word, word k.
fn case_of(ask: Ask, fixed: usize, k: usize, header: &[u8]) -> Result<Case, Fault>
    ensures { result ≡ case_of ask fixed (word_of k header.now) }
{
    let length = number_in(header, k, LENGTH_LIMIT, Fault::Length)?;
    Ok(Case { ask, fixed, length })
}

// A case of so many words, of which none but the last is read here: sum LENGTH, judge FLOW LENGTH, step FLOW LENGTH
#[tactic(auto, unfolding(crate::specs::Headers::plain_of))]
fn read_plain(ask: Ask, right: usize, header: &[u8]) -> Result<Case, Fault>
    ensures { result ≡ plain_of ask right header.now }
{
    count_words(right, header)?;
    case_of(ask, 0, right, header)
}

// value FLOW RECORD FIELD LENGTH
#[tactic(auto, unfolding(crate::specs::Headers::value_of))]
fn read_value(header: &[u8]) -> Result<Case, Fault>
    ensures { result ≡ value_of header.now }
{
    count_words(5, header)?;
    let record = number_in(header, 3, ASKED_LIMIT, Fault::Record)?;
    let field = number_in(header, 4, ASKED_LIMIT, Fault::Field)?;
    case_of(Ask::Value { record, field }, 0, 5, header)
}

// period FLOW PERIOD LENGTH
#[tactic(auto, unfolding(crate::specs::Headers::period_of))]
fn read_period(header: &[u8]) -> Result<Case, Fault>
    ensures { result ≡ period_of header.now }
{
    count_words(4, header)?;
    let period = number_in(header, 3, ASKED_LIMIT, Fault::Period)?;
    case_of(Ask::Period { period }, 0, 4, header)
}

// A case of so many words, of which only the last two are read here: write FLOW ROOM LENGTH, read FLOW ROOM LENGTH,
// export FLOW ROOM LENGTH, import ROOM LENGTH
#[tactic(auto, unfolding(crate::specs::Headers::making_of))]
fn read_making(making: Making, right: usize, header: &[u8]) -> Result<Case, Fault>
    requires { 1 ≤ right }
    ensures { result ≡ making_of making right header.now }
{
    count_words(right, header)?;
    let room = number_in(header, right - 1, LENGTH_LIMIT, Fault::Room)?;
    case_of(Ask::Make { making, room }, 0, right, header)
}

// index FLOW ROOM LENGTH
#[tactic(auto, unfolding(crate::specs::Headers::index_of))]
fn read_index(header: &[u8]) -> Result<Case, Fault>
    ensures { result ≡ index_of header.now }
{
    count_words(4, header)?;
    let room = number_in(header, 3, ENTRIES_LIMIT, Fault::Entries)?;
    case_of(Ask::Index { room }, 0, 4, header)
}

// field TYPE MARK FIXED LENGTH
#[tactic(auto, unfolding(crate::specs::Headers::field_of))]
fn read_field(header: &[u8]) -> Result<Case, Fault>
    ensures { result ≡ field_of header.now }
{
    count_words(5, header)?;
    let form = words::read_form(word(header, 2)).ok_or(Fault::Type)?;
    let mark = words::read_mark(word(header, 3)).ok_or(Fault::Mark)?;
    let fixed = number_in(header, 4, LENGTH_LIMIT, Fault::Fixed)?;
    case_of(Ask::Field { form, mark }, fixed, 5, header)
}

// A header by its first word.
#[tactic(auto, using(words::proofs::Bytewise::by_bytes), unfolding(crate::specs::Headers::case_named, crate::specs::Headers::room_named))]
fn read_named(name: &[u8], header: &[u8]) -> Result<Case, Fault>
    ensures { result ≡ case_named name.now header.now }
{
    match name {
        b"judge" => read_plain(Ask::Judge, 3, header),
        b"value" => read_value(header),
        b"field" => read_field(header),
        b"sum" => read_plain(Ask::Sum, 2, header),
        b"step" => read_plain(Ask::Step, 3, header),
        b"period" => read_period(header),
        b"write" => read_making(Making::Write, 4, header),
        b"read" => read_making(Making::Read, 4, header),
        b"export" => read_making(Making::Export, 4, header),
        b"import" => read_making(Making::Import, 3, header),
        b"index" => read_index(header),
        _ => Err(Fault::NoCase),
    }
}

// A header. No word of ours holds a carriage return, so that one at the end is always wrong; it is asked first, since it does not show.
#[tactic(auto, unfolding(crate::specs::Headers::header_of))]
pub fn read(header: &[u8]) -> Result<Case, Fault>
    ensures { result ≡ header_of header.now }
{
    if words::ends_in(b'\r', header) {
        return Err(Fault::CarriageReturn);
    }
    read_named(word(header, 1), header)
}
