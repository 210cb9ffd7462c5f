// The values that chunks set, each absent or present. Absent, a value is 0, and a float the 0 whose pattern is 0.
ghost use Rattle.std.specs.Prelude.{◌≡◌};
ghost use Rattle.body.specs.Values.{no_number, no_band, no_level};

// These types keep a flag with a value beside it and open fields: a state is a plain value, which a caller may give as
// no chunks leave it, as `Held { present: false, value: 1 }`, and number 3 refuses it (crates/trials/src/states.rt).
// Held and LevelHeld are two types, since docs/CALLS.md and specs/Table.antt name each.

// A whole number that a chunk set, or 0 where it is absent.
#[derive(Clone, Copy)]
pub struct Held {
    pub present: bool,
    pub value: i64,
}

// A bandwidth and its offset, absent or present together. Absent, both are 0.
#[derive(Clone, Copy)]
pub struct BandHeld {
    pub present: bool,
    pub width: i64,
    pub offset: i64,
}

// A level that a chunk set, or the float with pattern 0 where it is absent.
#[derive(Clone, Copy)]
pub struct LevelHeld {
    pub present: bool,
    pub value: f32,
}

// The next three calls differ in their types alone. They stay three, since docs/CALLS.md lists each by its name.

// An absent number.
pub fn no_number() -> Held
    ensures { result ≡ no_number }
{
    Held {
        present: false,
        value: 0,
    }
}

// An absent bandwidth.
pub fn no_band() -> BandHeld
    ensures { result ≡ no_band }
{
    BandHeld {
        present: false,
        width: 0,
        offset: 0,
    }
}

// An absent level.
pub fn no_level() -> LevelHeld
    ensures { result ≡ no_level }
{
    LevelHeld {
        present: false,
        value: 0.0,
    }
}
