// The values that chunks set, and the verdicts on chunks that are no data.
ghost use Rattle.std.specs.Prelude.{◌≡◌};
ghost use Rattle.body.specs.Fault.{read_said};
ghost use Rattle.body.specs.Check.{or_else};
ghost use Rattle.body.specs.Values.{no_band, no_level, number, banded, amount, levelled};
ghost use Rattle.effect.specs.Says.{verdict_said, judged};

use crate::Verdict;
use body::{Band, BandHeld, Fault, Held, Level, LevelHeld};

// A number that is absent.
pub(crate) const NONE: Held = Held {
    present: false,
    value: 0,
};

// What was read as the state holds it, or its absence where the body is malformed. Each of the three holds another type
// by other fields, so that one function for them would be handed all that they say.
// The absence of a number is handed in, so that what CF__ leaves of an old frequency stands in a line of its own.
pub(crate) fn held(read: Result<i64, Fault>, absent: Held) -> Held
    ensures { result ≡ or_else absent number (read_said read) }
{
    match read {
        Ok(value) => Held {
            present: true,
            value,
        },
        Err(_) => absent,
    }
}

pub(crate) fn banded(read: Result<Band, Fault>) -> BandHeld
    ensures { result ≡ or_else no_band banded (read_said read) }
{
    match read {
        Ok(b) => BandHeld {
            present: true,
            width: b.width,
            offset: b.offset,
        },
        Err(_) => body::no_band(),
    }
}

// The number of a level. Its cases differ in what the number means, so no field is common to them.
fn amount(level: Level) -> f32
    ensures { result ≡ amount level }
{
    match level {
        Level::FullScale(x) | Level::TotalGain(x) | Level::FloatFullScale(x) => x,
    }
}

pub(crate) fn levelled(read: Result<Level, Fault>) -> LevelHeld
    ensures { result ≡ or_else no_level levelled (read_said read) }
{
    match read {
        Ok(level) => LevelHeld {
            present: true,
            value: amount(level),
        },
        Err(_) => body::no_level(),
    }
}

// What is said of a chunk that is no data. No `From`: a conversion would call data good that may have to wait.
pub(crate) fn judged<T: Copy>(read: Result<T, Fault>) -> Verdict
    ensures { verdict_said result ≡ judged (read_said read) }
{
    match read {
        Ok(_) => Verdict::Good,
        Err(fault) => Verdict::Malformed(fault),
    }
}
