// Whether a chunk is ready data, asked by who copies its samples: nothing takes effect.
ghost use Rattle.std.specs.Prelude.{◌≡◌};
ghost use Rattle.effect.specs.Effect.{effect};
ghost use Rattle.effect.specs.Ready.{ready_data, asked_said};
ghost use Rattle.effect.specs.Says.{verdict_said};

use crate::Verdict;
use crate::ready::{Judged, grouped, single};
use body::{Data, Kind};
use num::Order;
use state::State;

// The data of a verdict that finds it ready.
// A match and no `From`: a conversion would not say that all other verdicts are left out.
fn answer(judged: Judged) -> Option<Data>
    ensures { asked_said result ≡ ready_data (verdict_said judged.verdict) }
{
    match judged.verdict {
        Verdict::Ready(d) => Some(d),
        _ => None,
    }
}

// The six arms stand in `take` as well: one function for them would test for data twice in a step.
// Whether a chunk is ready data in a state: its time and count of samples where it is. Nothing takes effect.
pub fn ready_data(order: Order, kind: Kind, body: &[u8], was: State) -> Option<Data>
    ensures { asked_said result ≡ ready_data (effect order kind body.now was).says }
{
    let packed = was.values.packing.present;
    let rated = was.values.rate.present;
    let scaled = was.values.float_scale.present;
    let group = was.values.group;
    match kind {
        Kind::SSNC => answer(single(body::ssnc(order, body), packed, rated, true)),
        Kind::SSNR => answer(single(body::ssnr(order, body), true, rated, true)),
        Kind::SFNC => answer(single(body::sfnc(order, body), packed, rated, scaled)),
        Kind::SFNR => answer(single(body::sfnr(order, body), true, rated, scaled)),
        Kind::GSNC => answer(grouped(body::gsnc(order, body), group, rated, true)),
        Kind::GFNC => answer(grouped(body::gfnc(order, body), group, rated, scaled)),
        _ => None,
    }
}
