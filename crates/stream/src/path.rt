// Files by the bytes of their names. To open one by its name takes text, and a name may have any bytes: one that is
// no text is opened by another, that of the link which the command that started us made of it on descriptor 5.
use crate::line::Line;
use std::fs::{File, OpenOptions, remove_file};
use std::rt::Files;

// The name of the link: the hex digits of each byte, a slash before each hundredth, and a hyphen at the end, so that no link has
// the name of a folder of links.
fn link_of(name: &[u8]) -> Line<8300> {
    let mut digits = [0u8; 16];
    let mut link = Line::new();
    link.put(b"/proc/self/fd/5");
    for (i, b) in name.iter().enumerate() {
        if i % 100 == 0 {
            link.put(b"/");
        }
        let k = io::hex(*b as u64, 2, &mut digits);
        link.put(&digits[..k]);
    }
    link.put(b"-");
    link
}

// The name by which a file is opened. A link's name that is cut short is too long for the system too.
fn name_of<'a>(path: &'a [u8], link: &'a mut Line<8300>) -> &'a str {
    match std::str::from_utf8(path) {
        Ok(text) => text,
        Err(_) => {
            *link = link_of(path);
            std::str::from_utf8(link.as_bytes()).unwrap_or("")
        }
    }
}

// Opens a file to read it.
pub fn open_read<R: Files>(rt: &R, path: &[u8]) -> std::io::Result<R::File> {
    File::open(rt, name_of(path, &mut Line::new()))
}

// Makes a new file to write it; where the name is taken, that fails.
pub fn create<R: Files>(rt: &R, path: &[u8]) -> std::io::Result<R::File> {
    OpenOptions::new()
        .write(true)
        .create_new(true)
        .open(rt, name_of(path, &mut Line::new()))
}

// Removes a file, if that can be done.
pub fn remove(rt: &impl Files, path: &[u8]) {
    let _ = remove_file(rt, name_of(path, &mut Line::new()));
}
