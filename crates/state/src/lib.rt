// The channel state: the values that chunks have set, by value.
#![tactic(auto)]

ghost use Rattle.std.specs.Prelude.{◌≡◌};
ghost use Rattle.body.specs.Table.{total_gain, gains, none};
ghost use Rattle.state.specs.State.{built, set_in, emptied, with_values, with_mark};

use body::{BandHeld, GroupGains, GroupHertz, GroupPacking, Held, LevelHeld};

pub mod good;
pub mod sums;

pub use good::{good_frequencies, good_lists};
pub use sums::{GainSums, no_sums};

// The values that chunks have set since the step was last regained, each absent or present, and the sums that follow
// from two of them.
#[derive(Clone, Copy)]
pub struct Values {
    // SIQP: 1 for I before Q
    pub packing: Held,
    // SR__, in µHz
    pub rate: Held,
    // BW__ or BWOF, in µHz
    pub band: BandHeld,
    // GCBW, in µHz
    pub group_band: Held,
    // CF__, in µHz
    pub centre: Held,
    // dBFS
    pub full_scale: LevelHeld,
    // dBTG
    pub total_gain: LevelHeld,
    // FFS_
    pub float_scale: LevelHeld,
    // GIQP
    pub group: GroupPacking,
    // GCF_
    pub frequencies: GroupHertz,
    // GRG_
    pub gains: GroupGains,
    // dBTG and GRG_ added, for each channel
    pub sums: GainSums,
}

// The channel state: the values, and the start mark.
#[derive(Clone, Copy)]
pub struct State {
    pub values: Values,
    // the next samples do not follow on from those before
    pub mark: bool,
}

// The parts of `Values::rebuilt`, field by field as well: the measured reason stands there.
fn number_rebuilt(h: Held) -> Held
    ensures { result ≡ h }
{
    Held {
        present: h.present,
        value: h.value,
    }
}

fn band_rebuilt(b: BandHeld) -> BandHeld
    ensures { result ≡ b }
{
    BandHeld {
        present: b.present,
        width: b.width,
        offset: b.offset,
    }
}

fn level_rebuilt(x: LevelHeld) -> LevelHeld
    ensures { result ≡ x }
{
    LevelHeld {
        present: x.present,
        value: x.value,
    }
}

fn packing_rebuilt(g: GroupPacking) -> GroupPacking
    ensures { result ≡ g }
{
    let offsets = g.offsets;
    GroupPacking {
        n: g.n,
        iq: g.iq,
        increment: g.increment,
        offsets,
    }
}

impl Values {
    // The same values, rebuilt field by field. A struct that is copied whole and then read field by field has its
    // padding copied too, in small pieces; of this copy the compiler moves the fields alone. With `self` in its place a
    // step runs 2.8 of 100 instructions more, and 3.0 where the reader's cursor is copied whole as well, which takes
    // 4.5 of 100 longer.
    fn rebuilt(self) -> Self
        ensures { result ≡ self }
    {
        let frequencies = self.frequencies;
        let gains = self.gains;
        let sums = self.sums;
        Values {
            packing: number_rebuilt(self.packing),
            rate: number_rebuilt(self.rate),
            band: band_rebuilt(self.band),
            group_band: number_rebuilt(self.group_band),
            centre: number_rebuilt(self.centre),
            full_scale: level_rebuilt(self.full_scale),
            total_gain: level_rebuilt(self.total_gain),
            float_scale: level_rebuilt(self.float_scale),
            group: packing_rebuilt(self.group),
            frequencies,
            gains,
            sums,
        }
    }

    // The values with another dBTG, and the sums that follow from it.
    pub fn with_total_gain(mut self, total: LevelHeld) -> Self
        ensures { result ≡ set_in total_gain total self }
    {
        let decibels = self.gains;
        let sums = sums::sums_of(total, decibels);
        self.total_gain = total;
        self.sums = sums;
        self
    }

    // The values with other gains, and the sums that follow from them.
    pub fn with_gains(mut self, decibels: GroupGains) -> Self
        ensures { result ≡ set_in gains decibels self }
    {
        let sums = sums::sums_of(self.total_gain, decibels);
        self.gains = decibels;
        self.sums = sums;
        self
    }

    // Every value absent.
    fn none() -> Self
        ensures { result ≡ built none }
    {
        Values {
            packing: body::no_number(),
            rate: body::no_number(),
            band: body::no_band(),
            group_band: body::no_number(),
            centre: body::no_number(),
            full_scale: body::no_level(),
            total_gain: body::no_level(),
            float_scale: body::no_level(),
            group: body::no_packing(),
            frequencies: body::no_hertz(),
            gains: body::no_gains(),
            sums: no_sums(),
        }
    }
}

impl State {
    // The same state, rebuilt field by field, so that the compiler copies no padding: measured, see `Values::rebuilt`.
    pub fn rebuilt(self) -> Self
        ensures { result ≡ self }
    {
        let values = self.values;
        State {
            values: values.rebuilt(),
            mark: self.mark,
        }
    }

    // The state with other values and the same mark. It is built from its two parts, since a whole copy that is then
    // changed takes longer.
    pub fn with_values(self, values: Values) -> Self
        ensures { result ≡ with_values self values }
    {
        State { values, ..self }
    }

    // The state with the same values, and the start mark set or not.
    pub fn with_mark(self, mark: bool) -> Self
        ensures { result ≡ with_mark self mark }
    {
        State { mark, ..self }
    }

    // A state with no value present, and the start mark set or not.
    pub fn empty(mark: bool) -> Self
        ensures { result ≡ emptied mark }
    {
        State {
            values: Values::none(),
            mark,
        }
    }
}
