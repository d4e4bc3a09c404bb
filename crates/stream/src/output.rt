// Bytes and numbers on standard output, and bytes as people can read them.
use crate::calls::write_whole;
use crate::complaint::fail;
use crate::shown::show_whole;
use std::io::writer;

// Standard output did not take all, and that has been said on standard error.
#[derive(Clone, Copy, PartialEq, Eq, Debug)]
pub struct Unwritten;

// Says so where standard output did not take all.
fn said(rt: &impl Eprint, written: std::io::Result<()>) -> Result<(), Unwritten> {
    written.map_err(|e| {
        fail(rt, b"can't write standard output", e);
        Unwritten
    })
}

// Writes bytes to standard output; where they can't all be written, that is said.
pub fn print(rt: &(impl Print + Eprint), bytes: &[u8]) -> Result<(), Unwritten> {
    said(rt, write_whole(&mut writer(rt), bytes))
}

// Writes a number to standard output.
pub fn print_number(rt: &(impl Print + Eprint), n: u64) -> Result<(), Unwritten> {
    let mut digits = [0u8; 20];
    let k = io::decimal(n, &mut digits);
    print(rt, &digits[..k])
}

// Writes bytes to standard output as people can read them.
pub fn print_shown(rt: &(impl Print + Eprint), bytes: &[u8]) -> Result<(), Unwritten> {
    let mut out = writer(rt);
    said(rt, show_whole(bytes, |part| write_whole(&mut out, part)))
}
