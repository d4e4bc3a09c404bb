// Lines made in an array.
ghost use Rattle.std.specs.Prelude.{◌≡◌, ◌+◌, ◌-◌, ◌≤◌, ◌∷◌, ◌++◌, ℕ, List, [], length, take};
ghost use Rattle.io.specs.Digits.{last_digits, IsDigitCount};

use std::marker::Model;

// A line of at most N bytes: those at the front of the array. Rattle lends no part of an array of N bytes yet, but one of the slice
// of them all, `[..]`.
#[derive(Drop)]
pub struct Line<const N: usize> {
    bytes: [u8; N],
    len: usize,
}

// Clauses see the bytes that stand in the line.
impl<const N: usize> Model for Line<N> {
    ghost Value = { List ℕ };

    ghost view = { λ line. take line.len line.bytes };

    ghost invariant = { λ line. line.len ≤ N };
}

impl<const N: usize> Line<N> {
    // A line without bytes.
    pub fn new() -> Self
        ensures { result ≡ [] }
    {
        Line {
            bytes: [0; N],
            len: 0,
        }
    }

    // Puts bytes at the end, as many as there is room for.
    pub fn put(&mut self, s: &[u8])
        ensures put { self.new ≡ self.old ++ take (N - length self.old) s.now }
        ensures within { length self.new ≤ N }
    {
        let n = s.len().min(N - self.len);
        self.bytes[..][self.len..self.len + n].copy_from_slice(&s[..n]);
        self.len += n;
    }

    // Puts a tab and a number at the end, as much of them as there is room for.
    pub fn put_number(&mut self, n: usize)
        ensures put { ((k : ℕ) × IsDigitCount 10 1 n k × (self.new ≡ self.old ++ take (N - length self.old) (9 ∷ last_digits 10 k n))) }
        ensures within { length self.new ≤ N }
    {
        let mut digits = [0u8; 20];
        let k = io::decimal(n as u64, &mut digits);
        self.put(b"\t");
        self.put(&digits[..k]);
    }

    // The bytes that stand in the line.
    pub fn as_bytes(&self) -> &[u8]
        ensures { result.now ≡ self.now }
    {
        &self.bytes[..][..self.len]
    }
}
