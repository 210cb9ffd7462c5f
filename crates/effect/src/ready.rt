// Data chunks: whether they are ready, and what they show.
ghost use Rattle.std.specs.Prelude.{◌≡◌, true, false, ltb};
ghost use Rattle.num.specs.Choice.{pick};
ghost use Rattle.body.specs.Fault.{read_said};
ghost use Rattle.state.specs.State.{with_values};
ghost use Rattle.effect.specs.Says.{verdict_said};
ghost use Rattle.effect.specs.Ready.{data_says, covering, is_ready, no_state, hertz_of, gains_of, beside_of, in_group};
ghost use Rattle.effect.specs.Effect.{data_effect};
ghost use Rattle.effect.specs.IsEffect.{IsEffect};

use crate::{Lack, Taken, Verdict};
use body::{Data, Fault, GroupGains, GroupHertz, GroupPacking};
use state::{GainSums, State, Values};

// The first lack decides.
// The flags go one by one: each kind asks for others, so a struct of them would be made anew for each of the six kinds.
fn verdict_of(read: Result<Data, Fault>, packed: bool, rated: bool, scaled: bool) -> Verdict
    ensures { verdict_said result ≡ data_says (read_said read) packed rated scaled }
{
    match read {
        Err(f) => Verdict::Malformed(f),
        Ok(d) if !packed => Verdict::Waits(Lack::Packing, d.time),
        Ok(d) if !rated => Verdict::Waits(Lack::Rate, d.time),
        Ok(d) if !scaled => Verdict::Waits(Lack::Scale, d.time),
        Ok(d) => Verdict::Ready(d),
    }
}

// A group chunk that lacks nothing has to cover its pairs as well.
fn covering(g: GroupPacking, verdict: Verdict) -> Verdict
    ensures { verdict_said result ≡ covering g (verdict_said verdict) }
{
    match verdict {
        Verdict::Ready(d) if !cover::covers(d.samples, g.n, g.increment as usize, g.offsets) => {
            Verdict::NotCovered
        }
        _ => verdict,
    }
}

fn is_ready(verdict: Verdict) -> bool
    ensures { result ≡ is_ready (verdict_said verdict) }
{
    matches!(verdict, Verdict::Ready(_))
}

// The next three have one form. They stay three, since specs/Ready.antt has a definition of each.
fn hertz_of(n: usize, h: GroupHertz) -> GroupHertz
    ensures { result ≡ hertz_of n h }
{
    if h.n == n { h } else { body::no_hertz() }
}

fn gains_of(n: usize, g: GroupGains) -> GroupGains
    ensures { result ≡ gains_of n g }
{
    if g.n == n { g } else { body::no_gains() }
}

fn beside_of(n: usize, g: GroupGains, sums: GainSums) -> GainSums
    ensures { result ≡ beside_of n g sums }
{
    if g.n == n { sums } else { state::no_sums() }
}

// The values as a group chunk shows them: without frequencies or gains of another count than the packing's, and without
// the sums of such gains.
fn in_group(was: Values) -> Values
    ensures { result ≡ in_group was }
{
    let group = was.group;
    let frequencies = was.frequencies;
    let gains = was.gains;
    let sums = was.sums;
    let mut shown = was;
    let h = hertz_of(group.n, frequencies);
    let g = gains_of(group.n, gains);
    let t = beside_of(group.n, gains, sums);
    shown.frequencies = h;
    shown.gains = g;
    shown.sums = t;
    shown
}

// What is said of a data chunk, and whether it is a group's.
#[derive(Clone, Copy)]
pub struct Judged {
    pub verdict: Verdict,
    pub group: bool,
}

// The state that a data chunk shows: none where it is not ready.
fn shows(ready: bool, group: bool, was: State) -> State
    ensures { result ≡ pick ready (with_values was (pick group (in_group was.values) was.values)) no_state }
{
    if !ready {
        State::empty(false)
    } else if group {
        was.with_values(in_group(was.values))
    } else {
        was
    }
}

// A ready chunk shows values with the start mark, and clears the mark; any other shows nothing and sets it.
pub(crate) fn data_effect(judged: Judged, was: State) -> Taken
    ensures { IsEffect result (data_effect (verdict_said judged.verdict)
        (pick judged.group (in_group was.values) was.values) was) }
{
    let verdict = judged.verdict;
    let ready = is_ready(verdict);
    let next = was.with_mark(!ready);
    Taken {
        verdict,
        shown: shows(ready, judged.group, was),
        state: next,
    }
}

// A data chunk of one channel: whether it has the packing, the sample rate and the float full scale, where it needs
// them.
pub(crate) fn single(read: Result<Data, Fault>, packed: bool, rated: bool, scaled: bool) -> Judged
    ensures { (verdict_said result.verdict ≡ data_says (read_said read) packed rated scaled) × (result.group ≡ false) }
{
    Judged {
        verdict: verdict_of(read, packed, rated, scaled),
        group: false,
    }
}

// A data chunk of a group: whether it has the sample rate, and the float full scale where it needs it.
pub(crate) fn grouped(
    read: Result<Data, Fault>,
    group: GroupPacking,
    rated: bool,
    scaled: bool,
) -> Judged
    ensures { (verdict_said result.verdict ≡ covering group
        (data_says (read_said read) (ltb 0 group.n) rated scaled))
        × (result.group ≡ true) }
{
    let verdict = verdict_of(read, 0 < group.n, rated, scaled);
    Judged {
        verdict: covering(group, verdict),
        group: true,
    }
}
