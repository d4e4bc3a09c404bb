// The six flows as numbers, each as it is in edition 533; layout's specs/Numbers.antt says how they are read, and table_of is proved to give the published flows.
// First how many rows there are, and if the last line feed is needed. Then a row for the start and one for each kind: name, followers
// as a set (the first kind is the lowest bit), place of its rules, how many rules, key field, kind that heads its set. Then the
// rules, three numbers a field: type, mark, place of its fixed value in the bytes. Zeros fill up what a smaller flow leaves.
pub const P0012: [u32; 110] = [
    7, // rows
    1, // the last line feed is needed
    0, // start
    0b1, // start: then ZHD
    0, 0, 0, 0, 0x5A4844, // ZHD
    0b10, // ZHD: then ZPD
    44, // ZHD: its rules
    6, // ZHD: 6 rules
    0, // ZHD: no key
    0, // ZHD: no head
    0x5A5044, // ZPD
    0b100, // ZPD: then HDR
    62, // ZPD: its rules
    5, // ZPD: 5 rules
    0, // ZPD: no key
    0, // ZPD: no head
    0x484452, // HDR
    0b111000, // HDR: then GSP or GS2 or ZPT
    77, // HDR: its rules
    3, // HDR: 3 rules
    0, // HDR: no key
    0, // HDR: no head
    0x475350, // GSP
    0b101000, // GSP: then GSP or ZPT
    86, // GSP: its rules
    3, // GSP: 3 rules
    2, // GSP: key field 2
    0, // GSP: key within the file
    0x475332, // GS2
    0b110000, // GS2: then GS2 or ZPT
    95, // GS2: its rules
    3, // GS2: 3 rules
    2, // GS2: key field 2
    0, // GS2: key within the file
    0x5A5054, // ZPT
    0b0, // ZPT: then nothing
    104, // ZPT: its rules
    2, // ZPT: 2 rules
    0, // ZPT: no key
    0, // ZPT: no head
    64, // ZHD field 2: text(8)
    34, // ZHD field 2: fixed
    0, // ZHD field 2: =P0012001
    8, // ZHD field 3: text(1)
    0, 0, 32, // ZHD field 4: text(4)
    0, 0, 8, // ZHD field 5: text(1)
    0, 0, 32, // ZHD field 6: text(4)
    0, 0, 4, // ZHD field 7: datetime
    0, 0, 3, // ZPD field 2: date
    0, 0, 16, // ZPD field 3: text(2)
    1, // opt
    0, 16, // ZPD field 4: text(2)
    1, // opt
    0, 57, // ZPD field 5: int(7)
    0, 0, 16, // ZPD field 6: text(2)
    0, 0, 81, // HDR field 2: int(10)
    0, 0, 16, // HDR field 3: text(2)
    0, 0, 105, // HDR field 4: int(13)
    0, 0, 6, // GSP field 2: period
    0, 0, 105, // GSP field 3: int(13)
    0, 0, 32882, // GSP field 4: dec(14,4)
    0, 0, 6, // GS2 field 2: period
    0, 0, 9, // GS2 field 3: int(1)
    6, // GS2 field 3: fixed
    1, // GS2 field 3: =0
    32882, // GS2 field 4: dec(14,4)
    0, 0, 81, // ZPT field 2: int(10)
    0, 0, 81, // ZPT field 3: int(10)
    0, 0,
];

pub const P0012_FIXED: [u8; 16] = *b"P0012001\0\0\0\0\0\0\0\0";

pub const P0181: [u32; 110] = [
    6, // rows
    1, // the last line feed is needed
    0, // start
    0b1, // start: then ZHD
    0, 0, 0, 0, 0x5A4844, // ZHD
    0b10, // ZHD: then GS7
    38, // ZHD: its rules
    6, // ZHD: 6 rules
    0, // ZHD: no key
    0, // ZHD: no head
    0x475337, // GS7
    0b10110, // GS7: then GS7 or SUP or ZPT
    56, // GS7: its rules
    1, // GS7: one rule
    0, // GS7: no key
    0, // GS7: no head
    0x535550, // SUP
    0b1000, // SUP: then BMU
    59, // SUP: its rules
    1, // SUP: one rule
    2, // SUP: key field 2
    2, // SUP: key within GS7
    0x424D55, // BMU
    0b11110, // BMU: then GS7 or SUP or BMU or ZPT
    62, // BMU: its rules
    4, // BMU: 4 rules
    2, // BMU: key field 2
    3, // BMU: key within SUP
    0x5A5054, // ZPT
    0b0, // ZPT: then nothing
    74, // ZPT: its rules
    2, // ZPT: 2 rules
    0, // ZPT: no key
    0, // ZPT: no head
    64, // ZHD field 2: text(8)
    34, // ZHD field 2: fixed
    0, // ZHD field 2: =P0181002
    8, // ZHD field 3: text(1)
    0, 0, 32, // ZHD field 4: text(4)
    0, 0, 8, // ZHD field 5: text(1)
    0, 0, 32, // ZHD field 6: text(4)
    0, 0, 4, // ZHD field 7: datetime
    0, 0, 16, // GS7 field 2: text(2)
    0, 0, 32, // SUP field 2: text(4)
    0, 0, 88, // BMU field 2: text(11)
    0, 0, 3, // BMU field 3: date
    0, 0, 3, // BMU field 4: date
    1, // opt
    0, 5, // BMU field 5: bol
    0, 0, 81, // ZPT field 2: int(10)
    0, 0, 81, // ZPT field 3: int(10)
    0, 0, 0, 0, 0, 0, 0, 0, 0, 0, 0, 0, 0, 0, 0, 0, 0, 0, 0, 0, 0, 0, 0, 0, 0, 0, 0, 0, 0, 0, 0, 0,
];

pub const P0181_FIXED: [u8; 16] = *b"P0181002\0\0\0\0\0\0\0\0";

pub const P0133: [u32; 110] = [
    5, // rows
    0, // the last line feed is not needed
    0, // start
    0b1, // start: then ZHD
    0, 0, 0, 0, 0x5A4844, // ZHD
    0b1010, // ZHD: then SB1 or ZPT
    32, // ZHD: its rules
    6, // ZHD: 6 rules
    0, // ZHD: no key
    0, // ZHD: no head
    0x534231, // SB1
    0b1110, // SB1: then SB1 or CM1 or ZPT
    50, // SB1: its rules
    5, // SB1: 5 rules
    0, // SB1: no key
    0, // SB1: no head
    0x434D31, // CM1
    0b1110, // CM1: then SB1 or CM1 or ZPT
    65, // CM1: its rules
    4, // CM1: 4 rules
    0, // CM1: no key
    2, // CM1: within SB1
    0x5A5054, // ZPT
    0b0, // ZPT: then nothing
    77, // ZPT: its rules
    2, // ZPT: 2 rules
    0, // ZPT: no key
    0, // ZPT: no head
    64, // ZHD field 2: text(8)
    34, // ZHD field 2: fixed
    0, // ZHD field 2: =P0133001
    8, // ZHD field 3: text(1)
    6, // ZHD field 3: fixed
    8, // ZHD field 3: =Z
    32, // ZHD field 4: text(4)
    0, 0, 8, // ZHD field 5: text(1)
    6, // ZHD field 5: fixed
    8, // ZHD field 5: =Z
    32, // ZHD field 6: text(4)
    0, 0, 4, // ZHD field 7: datetime
    0, 0, 8, // SB1 field 2: text(1)
    6, // SB1 field 2: fixed
    9, // SB1 field 2: =H
    8, // SB1 field 3: text(1)
    6, // SB1 field 3: fixed
    10, // SB1 field 3: =M
    64, // SB1 field 4: text(8)
    0, 0, 3, // SB1 field 5: date
    0, 0, 8, // SB1 field 6: text(1)
    6, // SB1 field 6: fixed
    10, // SB1 field 6: =M
    16, // CM1 field 2: text(2)
    1, // opt
    0, 57, // CM1 field 3: int(7)
    0, 0, 8226, // CM1 field 4: dec(4,1)
    0, 0, 57, // CM1 field 5: int(7)
    0, 0, 81, // ZPT field 2: int(10)
    0, 0, 81, // ZPT field 3: int(10)
    0, 0, 0, 0, 0, 0, 0, 0, 0, 0, 0, 0, 0, 0, 0, 0, 0, 0, 0, 0, 0, 0, 0, 0, 0, 0, 0, 0, 0,
];

// Where P0133 has the place of SB1's rules; behind it stands how many they are.
pub const SB1_RULES: usize = 16;

pub const P0133_FIXED: [u8; 16] = *b"P0133001ZHM\0\0\0\0\0";

pub const P0134: [u32; 110] = [
    5, // rows
    0, // the last line feed is not needed
    0, // start
    0b1, // start: then ZHD
    0, 0, 0, 0, 0x5A4844, // ZHD
    0b1010, // ZHD: then SB2 or ZPT
    32, // ZHD: its rules
    6, // ZHD: 6 rules
    0, // ZHD: no key
    0, // ZHD: no head
    0x534232, // SB2
    0b1110, // SB2: then SB2 or CM2 or ZPT
    50, // SB2: its rules
    4, // SB2: 4 rules
    0, // SB2: no key
    0, // SB2: no head
    0x434D32, // CM2
    0b1110, // CM2: then SB2 or CM2 or ZPT
    62, // CM2: its rules
    5, // CM2: 5 rules
    0, // CM2: no key
    2, // CM2: within SB2
    0x5A5054, // ZPT
    0b0, // ZPT: then nothing
    77, // ZPT: its rules
    2, // ZPT: 2 rules
    0, // ZPT: no key
    0, // ZPT: no head
    64, // ZHD field 2: text(8)
    34, // ZHD field 2: fixed
    0, // ZHD field 2: =P0134001
    8, // ZHD field 3: text(1)
    6, // ZHD field 3: fixed
    8, // ZHD field 3: =Z
    32, // ZHD field 4: text(4)
    0, 0, 8, // ZHD field 5: text(1)
    6, // ZHD field 5: fixed
    8, // ZHD field 5: =Z
    32, // ZHD field 6: text(4)
    0, 0, 4, // ZHD field 7: datetime
    0, 0, 8, // SB2 field 2: text(1)
    6, // SB2 field 2: fixed
    9, // SB2 field 2: =M
    64, // SB2 field 3: text(8)
    0, 0, 3, // SB2 field 4: date
    0, 0, 8, // SB2 field 5: text(1)
    6, // SB2 field 5: fixed
    9, // SB2 field 5: =M
    16, // CM2 field 2: text(2)
    1, // opt
    0, 57, // CM2 field 3: int(7)
    0, 0, 57, // CM2 field 4: int(7)
    0, 0, 8226, // CM2 field 5: dec(4,1)
    0, 0, 8226, // CM2 field 6: dec(4,1)
    0, 0, 81, // ZPT field 2: int(10)
    0, 0, 81, // ZPT field 3: int(10)
    0, 0, 0, 0, 0, 0, 0, 0, 0, 0, 0, 0, 0, 0, 0, 0, 0, 0, 0, 0, 0, 0, 0, 0, 0, 0, 0, 0, 0,
];

pub const P0134_FIXED: [u8; 16] = *b"P0134001ZM\0\0\0\0\0\0";

pub const P0138: [u32; 110] = [
    5, // rows
    0, // the last line feed is not needed
    0, // start
    0b1, // start: then ZHD
    0, 0, 0, 0, 0x5A4844, // ZHD
    0b10, // ZHD: then SUB
    32, // ZHD: its rules
    6, // ZHD: 6 rules
    0, // ZHD: no key
    0, // ZHD: no head
    0x535542, // SUB
    0b100, // SUB: then TA2
    50, // SUB: its rules
    5, // SUB: 5 rules
    0, // SUB: no key
    0, // SUB: no head
    0x544132, // TA2
    0b1000, // TA2: then ZPT
    65, // TA2: its rules
    1, // TA2: one rule
    0, // TA2: no key
    0, // TA2: no head
    0x5A5054, // ZPT
    0b0, // ZPT: then nothing
    68, // ZPT: its rules
    2, // ZPT: 2 rules
    0, // ZPT: no key
    0, // ZPT: no head
    64, // ZHD field 2: text(8)
    34, // ZHD field 2: fixed
    0, // ZHD field 2: =P0138001
    8, // ZHD field 3: text(1)
    6, // ZHD field 3: fixed
    8, // ZHD field 3: =G
    32, // ZHD field 4: text(4)
    0, 0, 8, // ZHD field 5: text(1)
    6, // ZHD field 5: fixed
    9, // ZHD field 5: =Z
    32, // ZHD field 6: text(4)
    0, 0, 4, // ZHD field 7: datetime
    0, 0, 8, // SUB field 2: text(1)
    6, // SUB field 2: fixed
    10, // SUB field 2: =B
    7, // SUB field 3: null
    0, 0, 7, // SUB field 4: null
    0, 0, 3, // SUB field 5: date
    0, 0, 8, // SUB field 6: text(1)
    6, // SUB field 6: fixed
    11, // SUB field 6: =M
    32810, // TA2 field 2: dec(5,4)
    0, 0, 81, // ZPT field 2: int(10)
    0, 0, 81, // ZPT field 3: int(10)
    0, 0, 0, 0, 0, 0, 0, 0, 0, 0, 0, 0, 0, 0, 0, 0, 0, 0, 0, 0, 0, 0, 0, 0, 0, 0, 0, 0, 0, 0, 0, 0,
    0, 0, 0, 0, 0, 0,
];

pub const P0138_FIXED: [u8; 16] = *b"P0138001GZBM\0\0\0\0";

pub const P0164: [u32; 110] = [
    5, // rows
    0, // the last line feed is not needed
    0, // start
    0b1, // start: then ZHD
    0, 0, 0, 0, 0x5A4844, // ZHD
    0b1010, // ZHD: then SUB or ZPT
    32, // ZHD: its rules
    6, // ZHD: 6 rules
    0, // ZHD: no key
    0, // ZHD: no head
    0x535542, // SUB
    0b1110, // SUB: then SUB or SP7 or ZPT
    50, // SUB: its rules
    5, // SUB: 5 rules
    0, // SUB: no key
    0, // SUB: no head
    0x535037, // SP7
    0b1110, // SP7: then SUB or SP7 or ZPT
    65, // SP7: its rules
    6, // SP7: 6 rules
    0x405, // SP7: key field 5, which may repeat
    2, // SP7: key within SUB
    0x5A5054, // ZPT
    0b0, // ZPT: then nothing
    83, // ZPT: its rules
    2, // ZPT: 2 rules
    0, // ZPT: no key
    0, // ZPT: no head
    64, // ZHD field 2: text(8)
    34, // ZHD field 2: fixed
    0, // ZHD field 2: =P0164001
    8, // ZHD field 3: text(1)
    6, // ZHD field 3: fixed
    8, // ZHD field 3: =G
    32, // ZHD field 4: text(4)
    0, 0, 8, // ZHD field 5: text(1)
    6, // ZHD field 5: fixed
    9, // ZHD field 5: =Z
    32, // ZHD field 6: text(4)
    0, 0, 4, // ZHD field 7: datetime
    0, 0, 8, // SUB field 2: text(1)
    6, // SUB field 2: fixed
    10, // SUB field 2: =B
    8, // SUB field 3: text(1)
    6, // SUB field 3: fixed
    11, // SUB field 3: =X
    32, // SUB field 4: text(4)
    0, 0, 3, // SUB field 5: date
    0, 0, 8, // SUB field 6: text(1)
    6, // SUB field 6: fixed
    12, // SUB field 6: =M
    16, // SP7 field 2: text(2)
    0, 0, 32, // SP7 field 3: text(4)
    0, 0, 8, // SP7 field 4: text(1)
    0, 0, 3, // SP7 field 5: date
    0, 0, 16, // SP7 field 6: text(2)
    0, 0, 81, // SP7 field 7: int(10)
    0, 0, 81, // ZPT field 2: int(10)
    0, 0, 81, // ZPT field 3: int(10)
    0, 0, 0, 0, 0, 0, 0, 0, 0, 0, 0, 0, 0, 0, 0, 0, 0, 0, 0, 0, 0, 0, 0,
];

pub const P0164_FIXED: [u8; 16] = *b"P0164001GZBXM\0\0\0";
