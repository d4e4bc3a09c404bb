// A refusal, and the byte of a file or a sheet that it points at.
#![tactic(auto)]

ghost use Rattle.std.specs.Prelude.{◌≡◌};
ghost use Rattle.place.specs.Places.{place_at, refusal_at, whole as whole_of};

// A refusal's number, the record and field where it is, and the place of these in the bytes that were judged, counted from 0. The number
// is the papers' own: the definitions, the C interface and the programs' lines give it.
#[derive(Clone, Copy, PartialEq, Eq)]
pub struct Refusal {
    pub number: usize,
    pub record: usize,
    pub field: usize,
    pub place: usize,
}

// The byte that record n, field k of a file or a sheet points at, its fields parted by `sep`.
pub fn of(sep: u8, s: &[u8], n: usize, k: usize) -> usize
    ensures { result ≡ place_at sep s.now n k }
{
    if n == 0 {
        return 0;
    }
    let Some(record) = record::record_at(s, n) else {
        return s.len();
    };
    let Some(field) = record::field_at(sep, record.of(s), k) else {
        return record.start;
    };
    record.start + field.start
}

// A refusal of a file or a sheet, with its place.
pub fn at(sep: u8, s: &[u8], number: usize, n: usize, k: usize) -> Refusal
    ensures { result ≡ refusal_at sep s.now number n k }
{
    Refusal {
        number,
        record: n,
        field: k,
        place: of(sep, s, n, k),
    }
}

// A refusal of the whole, at record 0.
pub fn whole(number: usize) -> Refusal
    ensures { result ≡ whole_of number }
{
    Refusal {
        number,
        record: 0,
        field: 0,
        place: 0,
    }
}
