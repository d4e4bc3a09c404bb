// Stored vectors: the checksums of fixed bytes, one a line, held to the file `stdout`.
#![tactic(auto)]

// A checksum as the number that is printed.
fn wide(sum: u32) -> u64 {
    sum as u64
}

// Writes the checksum of `s` on a line.
fn line(rt: &impl Print, s: &[u8]) {
    let _ = rt.println(wide(checksum::of_bytes(s)));
}

fn main(rt: HostRuntime) {
    // The bench file without its footer, and with it: a ZPT record is taken like any other.
    line(
        &rt,
        b"ZHD|P0138001|G|SVAA|Z|POOL|20240105120000\nSUB|B|||20231231|M\nTA2|1.0250\n",
    );
    line(
        &rt,
        b"ZHD|P0138001|G|SVAA|Z|POOL|20240105120000\nSUB|B|||20231231|M\nTA2|1.0250\nZPT|4|812996689\n",
    );
    // Nothing, and empty records.
    line(&rt, b"");
    line(&rt, b"\n");
    line(&rt, b"\n\n\n");
    // One, four and five bytes; the last line feed is absent.
    line(&rt, b"A");
    line(&rt, b"ABCD");
    line(&rt, b"ABCDE");
    // Pieces do not run across record ends, and line feeds are not counted.
    line(&rt, b"AB\nCD\n");
    line(&rt, b"AB\n\nCDEFGHI\nJ");
    // A carriage return is a byte like any other, and so are a tab, zero and the highest.
    line(&rt, b"A\r\nB\r\n");
    line(&rt, b"a\tb|c\n");
    line(&rt, b"\x00\x00\x00\x00\x00\x01\n\x00");
    line(&rt, b"\xff\xfe\x80\x7f\x01");
    // A record of more than 512 bytes.
    line(&rt, &[b'z'; 607]);
}
