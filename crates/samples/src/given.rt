// The plan for the chunk that a step gave.
ghost use Rattle.std.specs.Prelude.{◌≡◌, drop};
ghost use Rattle.frame.specs.Ahead.{ahead_of};
ghost use Rattle.samples.specs.Given.{is_that, layout_given, samples_given};
ghost use Rattle.samples.specs.Inner.Plan.{number_bytes, Tells, Sound};

use crate::{Plan, Uncopied};
use effect::Verdict;
use frame::Ahead;
use num::Order;
use reader::{Item, Stepped};

// Whether a complete chunk of this type and size stands at a place.
fn stands(order: Order, s: &[u8], place: usize, code: u32, size: usize) -> bool
    ensures { result ≡ is_that code size (ahead_of order (drop place s.now)) }
{
    matches!(frame::ahead_of(order, s, place), Ahead::Chunk { code: k, size: n } if (k == code) & (n == size))
}

// The stream has to have the chunk where it was given, and with the state shown it has to be ready as it was said to
// be. The width is a flag here as in lib.rt (`has_width`).
pub(crate) fn plan_of(
    order: Order,
    s: &[u8],
    stepped: Stepped,
    channel: usize,
    float: bool,
) -> Result<Plan, Uncopied>
    ensures { Tells s.now (layout_given float order s.now stepped channel)
        (samples_given s.now stepped) result
        × Sound (number_bytes float) s.now result }
{
    let Item::Chunk {
        place,
        code,
        size,
        verdict,
    } = stepped.item
    else {
        return Err(Uncopied::NotReady);
    };
    let Verdict::Ready(d) = verdict else {
        return Err(Uncopied::NotReady);
    };
    if !stands(order, s, place, code, size) {
        return Err(Uncopied::NotReady);
    }
    let shown = stepped.shown;
    let kind = body::kind_of(code);
    let Some(found) = crate::data_at(order, s, place, kind, size, shown) else {
        return Err(Uncopied::NotReady);
    };
    if found != d {
        return Err(Uncopied::NotReady);
    }
    crate::plan_in(float, kind, channel, shown, d, place, size)
}
