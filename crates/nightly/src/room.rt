// The room that is lent for a result, bytes or cells. It holds a pattern before, which all past the result must keep.

ghost use Rattle.std.specs.Prelude.{◌≡◌, ℕ, ◌==◌, drop, map};
ghost use Rattle.nightly.specs.Room.{pattern as pattern_of, patterned, Filled};

// What a room has many of: a number, which may be that of a byte.
trait Cell: Copy {
    ghost number: { Self → ℕ };

    // The cell of a byte.
    fn of(b: u8) -> Self
        ensures { number result ≡ b };

    // Whether it is that of a byte.
    fn is(self, b: u8) -> bool
        ensures { result ≡ (number self == b) };
}

impl Cell for u8 {
    ghost number = { λ x. x };

    fn of(b: u8) -> u8 {
        b
    }

    fn is(self, b: u8) -> bool {
        self == b
    }
}

impl Cell for u64 {
    ghost number = { λ x. x };

    fn of(b: u8) -> u64 {
        b as u64
    }

    fn is(self, b: u8) -> bool {
        self == b as u64
    }
}

// The pattern's byte at a place.
fn pattern(place: usize) -> u8
    ensures { result ≡ pattern_of place }
{
    ((place % 256 * 167 + 13) % 256) as u8
}

// Fills the room with the pattern.
pub fn fill<T: Cell>(room: &mut [T])
    ensures { Filled (map T.number room.old) (map T.number room.new) }
{
    for (i, cell) in room.iter_mut().enumerate() {
        *cell = T::of(pattern(i));
    }
}

// Whether the room holds the pattern from a place on. Each cell is looked at, without a branch, since as a rule all hold it.
pub fn kept<T: Cell>(room: &[T], at: usize) -> bool
    ensures { result ≡ patterned at (drop at (map T.number room.now)) }
{
    let mut all = true;
    for i in at..room.len() {
        all &= room[i].is(pattern(i));
    }
    all
}
