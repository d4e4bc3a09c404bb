// The sentence on a refusal of a file or a sheet: where it is, the rule, what was found and what would be
// right. In a file bars part the fields, in a sheet tabs.
use crate::{form, heading, kinds, naming, refusals, say};
use place::Refusal;
use record::{BAR, FEED, TAB};
use stream::{Unwritten, print};

// The set of all kinds.
const ALL: usize = 0xFFFFFFFF;

// The kinds that may stand as record n, by the one before it.
fn say_followers(
    rt: &(impl Print + Eprint),
    t: &[u32],
    sep: u8,
    file: &[u8],
    n: usize,
) -> Result<(), Unwritten> {
    if n == 0 {
        return Ok(());
    }
    kinds::say_followers(rt, t, findings::kind_at(t, sep, file, n - 1))
}

// What the field of a refusal should be, by its kind and what was found in it.
fn say_rule(
    rt: &(impl Print + Eprint),
    t: &[u32],
    fixed: &[u8],
    kind: usize,
    found: &[u8],
    r: Refusal,
) -> Result<(), Unwritten> {
    let k = r.field;
    if k < 2 {
        return Ok(());
    }
    let rules = layout::rules_of(t, kind);
    if rules.count <= k - 2 {
        return Ok(());
    }
    let p = rules.place + 3 * (k - 2);
    let form = layout::type_at(t, p);
    let mark = layout::mark_at(t, p);
    let value = layout::fixed_at(t, fixed, p);
    form::right_field(rt, r.number, form, mark, value, found)
}

// Where a record has just the number of fields that its kind has for these words, says so: the sender may have meant that edition.
fn say_where_right(
    rt: &(impl Print + Eprint),
    words: &[u8],
    sep: u8,
    r: &[u8],
) -> Result<(), Unwritten> {
    let Ok(n) = flow::find(words) else {
        return Ok(());
    };
    let t = flow::table_of(n).numbers;
    let kind = fault::kind_of(&t, sep, r);
    let found = record::count_fields(sep, r);
    if kind == 0 || findings::field_count(&t, kind) != found {
        return Ok(());
    }
    print(rt, b"; for `")?;
    print(rt, words)?;
    print(rt, b"` it has ")?;
    say::number(rt, found)
}

// How many fields there are, and how many there should be. P0133001 alone has a layout of its own in each edition.
fn say_field_count(
    rt: &(impl Print + Eprint),
    t: &[u32],
    sep: u8,
    kind: usize,
    r: &[u8],
) -> Result<(), Unwritten> {
    print(rt, b"; found ")?;
    say::number(rt, record::count_fields(sep, r))?;
    print(rt, b" fields, and ")?;
    print(rt, &layout::name_of(t, kind))?;
    print(rt, b" has ")?;
    say::number(rt, findings::field_count(t, kind))?;
    say_where_right(rt, b"P0133001 533", sep, r)?;
    say_where_right(rt, b"P0133001 711", sep, r)
}

// The key before that of the refused record, and whether it may come again.
fn say_key_before(
    rt: &(impl Print + Eprint),
    t: &[u32],
    sep: u8,
    file: &[u8],
    kind: usize,
    r: Refusal,
) -> Result<(), Unwritten> {
    let last = findings::last_of_kind(t, sep, kind, file, r.record);
    print(rt, b"; the key before is ")?;
    say::quoted(rt, words::part(sep, last, r.field))?;
    if layout::may_repeat(t, kind) {
        print(rt, b", which may come again")?;
    }
    Ok(())
}

// What stands where the refusal is. The footer that the writer adds to a sheet has the sheet's end as its place.
fn say_found(
    rt: &(impl Print + Eprint),
    sep: u8,
    file: &[u8],
    r: Refusal,
) -> Result<(), Unwritten> {
    if sep == TAB && r.place == file.len() {
        return print(rt, b"; found the footer that the writer adds");
    }
    say::found_field(rt, findings::field_refused(sep, file, r))
}

// The count or checksum that would be right. A sheet has no footer of its own.
fn say_right(
    rt: &(impl Print + Eprint),
    sep: u8,
    file: &[u8],
    r: Refusal,
) -> Result<(), Unwritten> {
    if sep == TAB {
        return Ok(());
    }
    if r.number == 12 {
        print(rt, b"; right is ")?;
        return say::number(rt, r.record);
    }
    let before = text::part(file, 0, place::of(BAR, file, r.record, 0));
    print(rt, b"; right is ")?;
    say::number(rt, checksum::of_bytes(before) as usize)
}

// A file or sheet over its limit is read no further than a byte over the file's.
fn say_size(rt: &(impl Print + Eprint), file: &[u8]) -> Result<(), Unwritten> {
    if 1048576 < file.len() {
        return print(rt, b"; found more than 1,048,576 bytes");
    }
    print(rt, b"; found ")?;
    say::number(rt, file.len())?;
    print(rt, b" bytes")
}

// What was found and what would be right, for a refusal of a record as a whole.
fn say_shape(
    rt: &(impl Print + Eprint),
    t: &[u32],
    sep: u8,
    file: &[u8],
    r: Refusal,
) -> Result<(), Unwritten> {
    let line = words::part(FEED, file, r.record);
    match r.number {
        3 => {
            print(rt, b"; found ")?;
            say::number(rt, line.len())?;
            print(rt, b" bytes")?;
            say::say_return(rt, line)
        }
        4 => {
            say_found(rt, sep, file, r)?;
            print(rt, b"; the flow's kinds are:")?;
            kinds::say_kinds(rt, t, ALL)
        }
        5 => {
            say_found(rt, sep, file, r)?;
            say_followers(rt, t, sep, file, r.record)
        }
        _ => say_field_count(rt, t, sep, fault::kind_of(t, sep, line), line),
    }
}

// The same for a refusal of a field.
fn say_field(
    rt: &(impl Print + Eprint),
    t: &[u32],
    fixed: &[u8],
    sep: u8,
    file: &[u8],
    r: Refusal,
) -> Result<(), Unwritten> {
    let kind = findings::kind_at(t, sep, file, r.record);
    say_found(rt, sep, file, r)?;
    match r.number {
        11 => say_key_before(rt, t, sep, file, kind, r),
        12 | 13 => say_right(rt, sep, file, r),
        _ => say_rule(rt, t, fixed, kind, findings::field_refused(sep, file, r), r),
    }
}

// The same for any refusal but 18, by the flow's table.
fn say_details(
    rt: &(impl Print + Eprint),
    t: &[u32],
    fixed: &[u8],
    sep: u8,
    file: &[u8],
    r: Refusal,
) -> Result<(), Unwritten> {
    match r.number {
        2 => say_size(rt, file),
        3..=6 => say_shape(rt, t, sep, file, r),
        7..=13 => say_field(rt, t, fixed, sep, file, r),
        14 => say_followers(rt, t, sep, file, r.record),
        16 => say::found(rt, words::part(FEED, file, r.record)),
        _ => Ok(()),
    }
}

// That line n of a sheet is a ZPT line, as the cause of a refusal.
fn say_cause(rt: &(impl Print + Eprint), n: usize) -> Result<(), Unwritten> {
    print(rt, b"; line ")?;
    say::number(rt, n)?;
    print(
        rt,
        b" of the sheet is a ZPT line, and a sheet has none: the writer adds the footer",
    )
}

// In a sheet, the ZPT line behind a refusal: the refused line itself, or the one before it, behind which
// nothing may stand. A line refused for its bars has them between its fields.
fn say_footer_line(
    rt: &(impl Print + Eprint),
    t: &[u32],
    sep: u8,
    sheet: &[u8],
    r: Refusal,
) -> Result<(), Unwritten> {
    let n = r.record;
    if sep != TAB {
        return Ok(());
    }
    if n < 1 {
        return Ok(());
    }
    if findings::is_footer_line(t, TAB, sheet, n) {
        return say_cause(rt, n);
    }
    if r.number == 16 && findings::is_footer_line(t, BAR, sheet, n) {
        return say_cause(rt, n);
    }
    if findings::is_footer_line(t, TAB, sheet, n - 1) {
        return say_cause(rt, n - 1);
    }
    Ok(())
}

// The record or field that is not there, and those that are.
fn say_there(
    rt: &(impl Print + Eprint),
    t: &[u32],
    records: usize,
    file: &[u8],
    r: Refusal,
) -> Result<(), Unwritten> {
    let n = r.record;
    if n == 0 || records < n {
        print(rt, b"There is no record ")?;
        say::number(rt, n)?;
        print(rt, b": the file has records 1 to ")?;
        return say::number(rt, records);
    }
    print(rt, b"There is no field ")?;
    say::number(rt, r.field)?;
    print(rt, b": record ")?;
    say::number(rt, n)?;
    heading::say_kind(rt, t, BAR, file, n)?;
    print(rt, b", has fields 1 to ")?;
    say::number(rt, record::count_fields(BAR, words::part(FEED, file, n)))
}

// What is there to be asked of an accepted file.
fn say_asked(
    rt: &(impl Print + Eprint),
    t: &[u32],
    fixed: &[u8],
    file: &[u8],
    r: Refusal,
) -> Result<(), Unwritten> {
    match judge::judge_by(t, fixed, file) {
        Ok(n) => say_there(rt, t, n, file, r),
        Err(_) => refusals::rule(rt, r.number),
    }
}

// Record, rule and details of a refusal, by the flow's table. 18 has its own rule, the one that was broken.
fn say_refusal(
    rt: &(impl Print + Eprint),
    t: &[u32],
    fixed: &[u8],
    sep: u8,
    file: &[u8],
    r: Refusal,
) -> Result<(), Unwritten> {
    if r.number == 18 {
        return say_asked(rt, t, fixed, file, r);
    }
    heading::say_heading(rt, t, sep, file, r)?;
    refusals::rule(rt, r.number)?;
    say_details(rt, t, fixed, sep, file, r)?;
    say_footer_line(rt, t, sep, file, r)
}

// The sentence on a refusal of a file, or of a sheet, whose fields are parted by tabs.
pub fn about_file(
    rt: &(impl Print + Eprint),
    flow: &[u8],
    sep: u8,
    file: &[u8],
    r: Refusal,
) -> Result<(), Unwritten> {
    match flow::find(flow) {
        Err(refusal) => naming::about_words(rt, flow, refusal.number),
        Ok(n) => {
            let table = flow::table_of(n);
            say_refusal(rt, &table.numbers, &table.fixed, sep, file, r)?;
            print(rt, b".\n")
        }
    }
}
