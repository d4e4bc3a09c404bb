// The rule behind each refusal, in words.
use crate::{calendar, say};
use stream::{Unwritten, print};

// The rule that refusal n holds up, 1 to 9.
fn early_rule(rt: &(impl Print + Eprint), n: usize) -> Result<(), Unwritten> {
    match n {
        1 => print(
            rt,
            b"the flow is one of P0012001, P0181002, P0133001, P0134001, P0138001 and P0164001, and nothing stands behind it but a space and an edition, 533 or 711",
        ),
        2 => print(
            rt,
            b"a file has at most 1,048,576 bytes, and a sheet or a comma-separated text at most 1,048,000",
        ),
        3 => print(
            rt,
            b"a record has at most 512 bytes, its line feed not counted",
        ),
        4 => print(
            rt,
            b"field 1 is the kind, and it is one of the flow's kinds",
        ),
        5 => print(rt, b"a kind stands only where the flow's grammar has it"),
        6 => print(rt, b"a record has as many fields as its kind asks"),
        7 => print(rt, b"a field is filled unless it is marked opt or null"),
        8 => print(rt, b"a field has the form of its type"),
        _ => print(rt, b"a field is within the range of its type"),
    }
}

// The rule that refusal n holds up, 10 to 22.
fn late_rule(rt: &(impl Print + Eprint), n: usize) -> Result<(), Unwritten> {
    match n {
        10 => print(
            rt,
            b"a fixed value is given as it is, and a null field is empty",
        ),
        11 => print(
            rt,
            b"no key out of its order: in its set each is above the one before it, but SP7 of P0164001 may have the same date again",
        ),
        12 => print(
            rt,
            b"the footer counts all records from the first to itself, both included",
        ),
        13 => print(
            rt,
            b"the footer's checksum is the exclusive-or of the 4-byte pieces of all records before it, first byte highest, the last piece of a record filled with zero bytes",
        ),
        14 => print(rt, b"the records end with ZPT, the footer"),
        15 => print(
            rt,
            b"a line feed (hex 0A) ends the last line of a sheet, and of a file in P0012001 and P0181002",
        ),
        16 => print(rt, b"a sheet has no bar: its fields are parted by tabs"),
        17 => print(rt, b"the output has room for the whole result"),
        18 => print(
            rt,
            b"the record and field that are asked are there; a width is 1 to 512 for text, 1 to 18 for int, and for dec 2 to 18 and then 1 to one less; a period that is asked for is 1 to 50",
        ),
        19 => print(rt, b"the list has room for all entries of the index"),
        20 => print(
            rt,
            b"comma-separated text is that of RFC 4180: commas part the fields, a carriage return and a line feed (hex 0D 0A) end each line, but may be absent at the last, a field with a comma or a quotation mark stands between quotation marks, and each one in it is doubled; a field has bytes 32 to 126 alone: no tab, no line break",
        ),
        21 => print(
            rt,
            b"the edition behind a flow and a space is 533 or 711, and 533 where none is named; in 711 SB1 of P0133001 has no market sector, and all else is the same in both",
        ),
        _ => print(
            rt,
            b"a period is asked for in P0012001 and in no other flow",
        ),
    }
}

// The rule that refusal n holds up.
pub fn rule(rt: &(impl Print + Eprint), n: usize) -> Result<(), Unwritten> {
    if n < 10 {
        early_rule(rt, n)
    } else {
        late_rule(rt, n)
    }
}

// The rule of a refusal on a line of its own; that of ranges with the calendar's.
pub fn explain(rt: &(impl Print + Eprint), n: usize) -> Result<(), Unwritten> {
    print(rt, b"refusal ")?;
    say::number(rt, n)?;
    print(rt, b": ")?;
    rule(rt, n)?;
    if n == 9 {
        calendar::say_months(rt)?;
    }
    print(rt, b".\n")
}
