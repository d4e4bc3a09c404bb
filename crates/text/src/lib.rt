// The characters of text: their classes, when two texts are the same, and which stands first.
#![tactic(auto)]

ghost use Rattle.std.specs.Prelude.{◌≡◌, take, drop};
ghost use Rattle.text.specs.Characters.{is_text, all, IsClassTable};
ghost use Rattle.text.specs.Order.{same_bytes, text_order};

use std::cmp::Ordering;

// The class of each byte value: 0 a digit, 1 another text character, 2 none.
const CLASS: [u8; 256] = [
    2, // 0x00
    2, // 0x01
    2, // 0x02
    2, // 0x03
    2, // 0x04
    2, // 0x05
    2, // 0x06
    2, // 0x07
    2, // 0x08
    2, // 0x09
    2, // 0x0A
    2, // 0x0B
    2, // 0x0C
    2, // 0x0D
    2, // 0x0E
    2, // 0x0F
    2, // 0x10
    2, // 0x11
    2, // 0x12
    2, // 0x13
    2, // 0x14
    2, // 0x15
    2, // 0x16
    2, // 0x17
    2, // 0x18
    2, // 0x19
    2, // 0x1A
    2, // 0x1B
    2, // 0x1C
    2, // 0x1D
    2, // 0x1E
    2, // 0x1F
    1, // 0x20 space
    1, // 0x21 !
    1, // 0x22 "
    2, // 0x23 #
    2, // 0x24 $
    1, // 0x25 %
    1, // 0x26 &
    1, // 0x27 '
    1, // 0x28 (
    1, // 0x29 )
    1, // 0x2A *
    1, // 0x2B +
    1, // 0x2C ,
    1, // 0x2D -
    1, // 0x2E .
    1, // 0x2F /
    0, // 0x30 0
    0, // 0x31 1
    0, // 0x32 2
    0, // 0x33 3
    0, // 0x34 4
    0, // 0x35 5
    0, // 0x36 6
    0, // 0x37 7
    0, // 0x38 8
    0, // 0x39 9
    1, // 0x3A :
    1, // 0x3B ;
    1, // 0x3C <
    1, // 0x3D =
    1, // 0x3E >
    1, // 0x3F ?
    2, // 0x40 @
    1, // 0x41 A
    1, // 0x42 B
    1, // 0x43 C
    1, // 0x44 D
    1, // 0x45 E
    1, // 0x46 F
    1, // 0x47 G
    1, // 0x48 H
    1, // 0x49 I
    1, // 0x4A J
    1, // 0x4B K
    1, // 0x4C L
    1, // 0x4D M
    1, // 0x4E N
    1, // 0x4F O
    1, // 0x50 P
    1, // 0x51 Q
    1, // 0x52 R
    1, // 0x53 S
    1, // 0x54 T
    1, // 0x55 U
    1, // 0x56 V
    1, // 0x57 W
    1, // 0x58 X
    1, // 0x59 Y
    1, // 0x5A Z
    2, // 0x5B [
    2, // 0x5C \
    2, // 0x5D ]
    2, // 0x5E ^
    1, // 0x5F _
    2, // 0x60 `
    1, // 0x61 a
    1, // 0x62 b
    1, // 0x63 c
    1, // 0x64 d
    1, // 0x65 e
    1, // 0x66 f
    1, // 0x67 g
    1, // 0x68 h
    1, // 0x69 i
    1, // 0x6A j
    1, // 0x6B k
    1, // 0x6C l
    1, // 0x6D m
    1, // 0x6E n
    1, // 0x6F o
    1, // 0x70 p
    1, // 0x71 q
    1, // 0x72 r
    1, // 0x73 s
    1, // 0x74 t
    1, // 0x75 u
    1, // 0x76 v
    1, // 0x77 w
    1, // 0x78 x
    1, // 0x79 y
    1, // 0x7A z
    2, // 0x7B {
    2, // 0x7C |
    2, // 0x7D }
    2, // 0x7E ~
    2, // 0x7F
    2, // 0x80
    2, // 0x81
    2, // 0x82
    2, // 0x83
    2, // 0x84
    2, // 0x85
    2, // 0x86
    2, // 0x87
    2, // 0x88
    2, // 0x89
    2, // 0x8A
    2, // 0x8B
    2, // 0x8C
    2, // 0x8D
    2, // 0x8E
    2, // 0x8F
    2, // 0x90
    2, // 0x91
    2, // 0x92
    2, // 0x93
    2, // 0x94
    2, // 0x95
    2, // 0x96
    2, // 0x97
    2, // 0x98
    2, // 0x99
    2, // 0x9A
    2, // 0x9B
    2, // 0x9C
    2, // 0x9D
    2, // 0x9E
    2, // 0x9F
    2, // 0xA0
    2, // 0xA1
    2, // 0xA2
    2, // 0xA3
    2, // 0xA4
    2, // 0xA5
    2, // 0xA6
    2, // 0xA7
    2, // 0xA8
    2, // 0xA9
    2, // 0xAA
    2, // 0xAB
    2, // 0xAC
    2, // 0xAD
    2, // 0xAE
    2, // 0xAF
    2, // 0xB0
    2, // 0xB1
    2, // 0xB2
    2, // 0xB3
    2, // 0xB4
    2, // 0xB5
    2, // 0xB6
    2, // 0xB7
    2, // 0xB8
    2, // 0xB9
    2, // 0xBA
    2, // 0xBB
    2, // 0xBC
    2, // 0xBD
    2, // 0xBE
    2, // 0xBF
    2, // 0xC0
    2, // 0xC1
    2, // 0xC2
    2, // 0xC3
    2, // 0xC4
    2, // 0xC5
    2, // 0xC6
    2, // 0xC7
    2, // 0xC8
    2, // 0xC9
    2, // 0xCA
    2, // 0xCB
    2, // 0xCC
    2, // 0xCD
    2, // 0xCE
    2, // 0xCF
    2, // 0xD0
    2, // 0xD1
    2, // 0xD2
    2, // 0xD3
    2, // 0xD4
    2, // 0xD5
    2, // 0xD6
    2, // 0xD7
    2, // 0xD8
    2, // 0xD9
    2, // 0xDA
    2, // 0xDB
    2, // 0xDC
    2, // 0xDD
    2, // 0xDE
    2, // 0xDF
    2, // 0xE0
    2, // 0xE1
    2, // 0xE2
    2, // 0xE3
    2, // 0xE4
    2, // 0xE5
    2, // 0xE6
    2, // 0xE7
    2, // 0xE8
    2, // 0xE9
    2, // 0xEA
    2, // 0xEB
    2, // 0xEC
    2, // 0xED
    2, // 0xEE
    2, // 0xEF
    2, // 0xF0
    2, // 0xF1
    2, // 0xF2
    2, // 0xF3
    2, // 0xF4
    2, // 0xF5
    2, // 0xF6
    2, // 0xF7
    2, // 0xF8
    2, // 0xF9
    2, // 0xFA
    2, // 0xFB
    2, // 0xFC
    2, // 0xFD
    2, // 0xFE
    2, // 0xFF
];

// The table, to be copied once into a local and lent: a constant that is indexed is built anew at every use.
pub fn class_table() -> [u8; 256]
    ensures { IsClassTable result }
{
    CLASS
}

// Each byte is a text character. Classes are or-ed and tested once, which costs less than a test at each byte.
pub fn all_text(class: &[u8; 256], s: &[u8]) -> bool
    requires { IsClassTable class.now }
    ensures { result ≡ all is_text s.now }
{
    let mut seen: u8 = 0;
    for b in s {
        seen = seen | class[*b as usize];
    }
    seen < 2
}

// The same bytes, and as many.
pub fn same_bytes(a: &[u8], b: &[u8]) -> bool
    ensures { result ≡ same_bytes a.now b.now }
{
    a == b
}

// How the text a stands to the text b: by byte, a shorter text before one that continues it.
#[tactic(auto, using(crate::proofs::Orders::slice_cmp_is))]
pub fn text_order(a: &[u8], b: &[u8]) -> Ordering
    ensures { result ≡ text_order a.now b.now }
{
    a.cmp(b)
}

// The bytes from a on, n of them, as many as there are.
pub fn part<'a>(s: &'a [u8], a: usize, n: usize) -> &'a [u8]
    ensures { result.now ≡ take n (drop a s.now) }
{
    let rest = &s[a.min(s.len())..];
    &rest[..n.min(rest.len())]
}
