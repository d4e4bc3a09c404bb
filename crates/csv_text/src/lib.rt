// Comma-separated text: a file exported as one, and one imported as a sheet.
#![tactic(auto)]

ghost use Rattle.std.specs.Prelude.{◌≡◌, List, ◌∷◌, [], ℕ, ◌+◌, ◌≤◌, length};
ghost use Rattle.record.specs.Records.{records, fields, turned, bar};
ghost use Rattle.flow.specs.Editions.{asked};
ghost use Rattle.sheet.specs.Code.{put};
ghost use Rattle.sheet.specs.Write.{paper};
ghost use Rattle.csv_text.specs.Export.{quoted as quoted_of, doubled, field_of, line_of, text_of, rows_of, Exported};
ghost use Rattle.csv_text.specs.Import.{Imported};
ghost use Rattle.csv_text.specs.Code.{SinkLaws, CountRoom, Counts, counting_laws, PutRoom, Puts, putting_laws};

use place::Refusal;
use record::{BAR, FEED, FieldSpans, RecordSpans};
use rfc4180::{COMMA, QUOTE, RETURN};
use sheet::Transferred;

// A field, or one of a record, holds a comma or a quotation mark.
fn quoted(x: &[u8]) -> bool
    ensures { result ≡ quoted_of x.now }
{
    sheet::has_byte(x, COMMA) || sheet::has_byte(x, QUOTE)
}

// What takes the bytes of a text, one after the other.
trait Sink {
    // It can still take so many bytes.
    ghost has_room: { Self → ℕ → Type 0 };

    // The bytes that it took from one state to another.
    ghost took: { Self → List ℕ → Self → Type 0 };

    // Takes one byte.
    fn put(&mut self, b: u8)
        requires { has_room self.old 1 }
        ensures { took self.old (b ∷ []) self.new };

    // Takes the bytes of s, each `from` turned to `to`.
    fn put_turned(&mut self, s: &[u8], from: u8, to: u8)
        requires { has_room self.old (length s.now) }
        ensures { took self.old (turned from to s.now) self.new };

    // Bytes taken one after the other are taken together, and each takes its room.
    ghost laws: { SinkLaws has_room took };
}

// Counts the bytes and keeps none.
#[derive(Drop)]
struct Counting {
    bytes: usize,
}

impl Sink for Counting {
    ghost has_room = { CountRoom };

    ghost took = { Counts };

    ghost laws = { counting_laws };

    fn put(&mut self, _b: u8) {
        self.bytes += 1;
    }

    fn put_turned(&mut self, s: &[u8], _from: u8, _to: u8) {
        self.bytes += s.len();
    }
}

// Puts the bytes among the lent ones, from `at` on.
#[derive(Drop)]
struct Putting<'a> {
    out: &'a mut [u8],
    at: usize,
}

impl<'a> Sink for Putting<'a> {
    ghost has_room = { PutRoom };

    ghost took = { Puts };

    ghost laws = { putting_laws };

    fn put(&mut self, b: u8) {
        self.out[self.at] = b;
        self.at += 1;
    }

    fn put_turned(&mut self, s: &[u8], from: u8, to: u8) {
        sheet::put_turned(self.out, self.at, s, from, to);
        self.at += s.len();
    }
}

// One byte of a quoted field; a quotation mark stands twice.
fn put_byte<S: Sink>(sink: &mut S, b: u8)
    requires { S.has_room sink.old (length (doubled (b ∷ []))) }
    ensures { S.took sink.old (doubled (b ∷ [])) sink.new }
{
    sink.put(b);
    if b == QUOTE {
        sink.put(b);
    }
}

// The bytes of a field with its quotation marks doubled.
fn put_doubled<S: Sink>(sink: &mut S, x: &[u8])
    requires { S.has_room sink.old (length (doubled x.now)) }
    ensures { S.took sink.old (doubled x.now) sink.new }
{
    for b in x {
        put_byte(sink, *b);
    }
}

// A field: as it is, or between quotation marks with its own doubled.
fn put_field<S: Sink>(sink: &mut S, x: &[u8])
    requires { S.has_room sink.old (length (field_of x.now)) }
    ensures { S.took sink.old (field_of x.now) sink.new }
{
    if !quoted(x) {
        sink.put_turned(x, QUOTE, QUOTE);
        return;
    }
    sink.put(QUOTE);
    put_doubled(sink, x);
    sink.put(QUOTE);
}

// The line of a record, its fields one by one.
fn put_fields<S: Sink>(sink: &mut S, r: &[u8])
    requires { S.has_room sink.old (length (line_of (fields bar r.now))) }
    ensures { S.took sink.old (line_of (fields bar r.now)) sink.new }
{
    for field in FieldSpans::of(BAR, r) {
        put_field(sink, field.of(r));
        if field.end < r.len() {
            sink.put(COMMA);
        }
    }
}

// The line of a record, without its end. One without comma and quotation mark has no field to quote, and keeps its length.
fn put_line<S: Sink>(sink: &mut S, r: &[u8])
    requires { S.has_room sink.old (length (line_of (fields bar r.now))) }
    ensures { S.took sink.old (line_of (fields bar r.now)) sink.new }
{
    if !quoted(r) {
        sink.put_turned(r, BAR, COMMA);
        return;
    }
    put_fields(sink, r);
}

// The text of some records.
fn put_lines<S: Sink>(sink: &mut S, s: &[u8])
    requires { S.has_room sink.old (length (text_of (rows_of (records s.now)))) }
    ensures { S.took sink.old (text_of (rows_of (records s.now))) sink.new }
{
    for record in RecordSpans::of(s) {
        put_line(sink, record.of(s));
        sink.put(RETURN);
        sink.put(FEED);
    }
}

// How many bytes the text of some records takes.
fn text_size(s: &[u8]) -> usize
    requires { length (text_of (rows_of (records s.now))) ≤ 9000000 }
    ensures { result ≡ length (text_of (rows_of (records s.now))) }
{
    let mut counting = Counting { bytes: 0 };
    put_lines(&mut counting, s);
    counting.bytes
}

// The text of some records put at the front.
fn put_text(out: &mut [u8], s: &[u8])
    requires { length (text_of (rows_of (records s.now))) ≤ length out.old }
    ensures { out.new ≡ put out.old 0 (text_of (rows_of (records s.now))) }
{
    let mut putting = Putting { out, at: 0 };
    put_lines(&mut putting, s);
}

// Exports a file for the flow that the words ask for as text in the lent bytes. Any words, any bytes, any room.
pub fn export(flow: &[u8], file: &[u8], out: &mut [u8]) -> Result<Transferred, Refusal>
    ensures { Exported (asked flow.now) file.now result out.old out.new }
{
    let records = judge::judge(flow, file)?;
    let end = sheet::last_start(file);
    let bytes = text_size(&file[..end]);
    if out.len() < bytes {
        return Err(place::whole(17));
    }
    put_text(out, &file[..end]);
    Ok(Transferred { records, bytes })
}

// Imports a text as a sheet in the lent bytes: any bytes, any room.
pub fn import(text: &[u8], out: &mut [u8]) -> Result<Transferred, Refusal>
    ensures { Imported text.now out.old (paper result) out.new }
{
    if 1048000 < text.len() {
        return Err(place::whole(2));
    }
    let seen = rfc4180::scan(text).map_err(|halt| place::at(COMMA, text, 20, halt.line, 0))?;
    if 1048000 < seen.bytes {
        return Err(place::whole(2));
    }
    if sheet::has_byte(text, BAR) {
        return Err(place::at(COMMA, text, 16, sheet::first_bar_line(text), 0));
    }
    if out.len() < seen.bytes {
        return Err(place::whole(17));
    }
    rfc4180::put_sheet(out, text);
    Ok(Transferred {
        records: seen.lines,
        bytes: seen.bytes,
    })
}
