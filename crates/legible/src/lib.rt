// Bytes as people can read them.
#![tactic(auto)]

ghost use Rattle.std.specs.Prelude.{◌≡◌, ◌+◌, ◌≤◌, ◌<◌, length};
ghost use Rattle.std.proofs.lemmas.List.Edits.{sets};
ghost use Rattle.legible.specs.Shown.{is_plain, hex_digit, escaped, shown_byte, Shows};

// The byte is shown as itself.
#[tactic(auto, unfolding(crate::specs::Shown::is_plain))]
fn is_plain(b: u8) -> bool
    ensures { result ≡ is_plain b }
{
    matches!(b, b' '..=b'~') && b != b'\\' && b != b'`'
}

// A hex digit, its letter small.
#[tactic(auto, unfolding(crate::specs::Shown::hex_digit))]
fn hex_digit(d: u8) -> u8
    requires { d < 16 }
    ensures { result ≡ hex_digit d }
{
    if d < 10 { b'0' + d } else { b'a' + (d - 10) }
}

// How many bytes show a byte.
#[tactic(auto, unfolding(crate::specs::Shown::shown_byte))]
fn shown_width(b: u8) -> usize
    ensures { result ≡ length (shown_byte b) }
{
    if is_plain(b) { 1 } else { 4 }
}

// Puts a backslash, an x and a byte's two hex digits from a place on.
fn put_escaped(out: &mut [u8], at: usize, b: u8)
    requires { at + 4 ≤ length out.old }
    ensures { out.new ≡ sets out.old at (escaped b) }
{
    let shown = [b'\\', b'x', hex_digit(b / 16), hex_digit(b % 16)];
    out[at..at + 4].copy_from_slice(&shown);
}

// Puts a byte as it is shown from a place on.
#[tactic(auto, unfolding(crate::specs::Shown::shown_byte))]
fn put_shown(out: &mut [u8], at: usize, b: u8)
    requires { at + length (shown_byte b) ≤ length out.old }
    ensures { out.new ≡ sets out.old at (shown_byte b) }
{
    if is_plain(b) {
        out[at] = b;
    } else {
        put_escaped(out, at, b);
    }
}

// Shows bytes at the front of the lent ones, as many as have room, and gives how many bytes that took.
pub fn show(s: &[u8], out: &mut [u8]) -> usize
    ensures { Shows s.now out.old out.new result }
{
    let mut n = 0;
    for b in s {
        let width = shown_width(*b);
        if out.len() - n < width {
            return n;
        }
        put_shown(out, n, *b);
        n += width;
    }
    n
}
