// The effect of a chunk, by its kind.
// Order, body and state go on as `take` is given them: a struct of them would be made once and taken apart in each.
ghost use Rattle.std.specs.Prelude.{◌≡◌};
ghost use Rattle.state.specs.State.{with_values};
ghost use Rattle.effect.specs.Effect.{effect};
ghost use Rattle.effect.specs.Ready.{no_state};
ghost use Rattle.effect.specs.IsEffect.{IsEffect};

use crate::ready::{data_effect, grouped, single};
use crate::{Taken, Verdict, value};
use body::{BandHeld, Kind};
use num::Order;
use state::{State, Values};

// A chunk that is no data shows nothing.
fn met(verdict: Verdict, next: State) -> Taken
    ensures { (result.verdict ≡ verdict) × (result.shown ≡ no_state) × (result.state ≡ next) }
{
    Taken {
        verdict,
        shown: State::empty(false),
        state: next,
    }
}

// A chunk that sets a value leaves the state with these values.
fn set(verdict: Verdict, was: State, values: Values) -> Taken
    ensures { (result.verdict ≡ verdict) × (result.shown ≡ no_state) × (result.state ≡ with_values was values) }
{
    met(verdict, was.with_values(values))
}

// A function for each kind that sets a value: they differ in the reading and in the field, which a closure for each would
// have to name as well.
fn siqp(order: Order, body: &[u8], was: State) -> Taken
    ensures { IsEffect result (effect order Kind.SIQP body.now was) }
{
    let read = body::siqp(order, body);
    let value = value::held(read, value::NONE);
    let mut values = was.values;
    values.packing = value;
    set(value::judged(read), was, values)
}

fn sr(order: Order, body: &[u8], was: State) -> Taken
    ensures { IsEffect result (effect order Kind.SR body.now was) }
{
    let read = body::sr(order, body);
    let value = value::held(read, value::NONE);
    let mut values = was.values;
    values.rate = value;
    set(value::judged(read), was, values)
}

// BW__ sets the offset to 0.
fn bw(order: Order, body: &[u8], was: State) -> Taken
    ensures { IsEffect result (effect order Kind.BW body.now was) }
{
    let read = body::bw(order, body);
    let bandwidth = value::held(read, value::NONE);
    let band = BandHeld {
        present: bandwidth.present,
        width: bandwidth.value,
        offset: 0,
    };
    let mut values = was.values;
    values.band = band;
    set(value::judged(read), was, values)
}

fn bwof(order: Order, body: &[u8], was: State) -> Taken
    ensures { IsEffect result (effect order Kind.BWOF body.now was) }
{
    let read = body::bwof(order, body);
    let value = value::banded(read);
    let mut values = was.values;
    values.band = value;
    set(value::judged(read), was, values)
}

fn gcbw(order: Order, body: &[u8], was: State) -> Taken
    ensures { IsEffect result (effect order Kind.GCBW body.now was) }
{
    let read = body::bw(order, body);
    let value = value::held(read, value::NONE);
    let mut values = was.values;
    values.group_band = value;
    set(value::judged(read), was, values)
}

fn cf(order: Order, body: &[u8], was: State) -> Taken
    ensures { IsEffect result (effect order Kind.CF body.now was) }
{
    let absent = value::NONE;
    let read = body::cf(order, body);
    let frequency = value::held(read, absent);
    let mut values = was.values;
    values.centre = frequency;
    set(value::judged(read), was, values)
}

fn dbfs(order: Order, body: &[u8], was: State) -> Taken
    ensures { IsEffect result (effect order Kind.DBFS body.now was) }
{
    let read = body::dbfs(order, body);
    let value = value::levelled(read);
    let mut values = was.values;
    values.full_scale = value;
    set(value::judged(read), was, values)
}

fn dbtg(order: Order, body: &[u8], was: State) -> Taken
    ensures { IsEffect result (effect order Kind.DBTG body.now was) }
{
    let read = body::dbtg(order, body);
    let value = value::levelled(read);
    let values = was.values;
    set(value::judged(read), was, values.with_total_gain(value))
}

fn ffs(order: Order, body: &[u8], was: State) -> Taken
    ensures { IsEffect result (effect order Kind.FFS body.now was) }
{
    let read = body::ffs(order, body);
    let value = value::levelled(read);
    let mut values = was.values;
    values.float_scale = value;
    set(value::judged(read), was, values)
}

fn giqp(order: Order, body: &[u8], was: State) -> Taken
    ensures { IsEffect result (effect order Kind.GIQP body.now was) }
{
    let read = body::giqp(order, body);
    let mut values = was.values;
    values.group = read.unwrap_or(body::no_packing());
    set(value::judged(read), was, values)
}

fn gcf(order: Order, body: &[u8], was: State) -> Taken
    ensures { IsEffect result (effect order Kind.GCF body.now was) }
{
    let read = body::gcf(order, body);
    let mut values = was.values;
    values.frequencies = read.unwrap_or(body::no_hertz());
    set(value::judged(read), was, values)
}

fn grg(order: Order, body: &[u8], was: State) -> Taken
    ensures { IsEffect result (effect order Kind.GRG body.now was) }
{
    let read = body::grg(order, body);
    let value = read.unwrap_or(body::no_gains());
    let values = was.values;
    set(value::judged(read), was, values.with_gains(value))
}

// A well-formed IQDC sets the start mark.
fn iqdc(order: Order, body: &[u8], was: State) -> Taken
    ensures { IsEffect result (effect order Kind.IQDC body.now was) }
{
    let read = body::empty(body);
    met(value::judged(read), was.with_mark(read.is_ok() | was.mark))
}

// What a chunk does in a state: it sets its value, or removes it where the chunk is malformed; sets the start mark; or
// is data, which is ready or waits. A ready chunk shows the state, and clears the mark.
// A match and no table of functions: data kinds get the values that they ask for, the others the whole state.
pub fn take(order: Order, kind: Kind, body: &[u8], was: State) -> Taken
    ensures { IsEffect result (effect order kind body.now was) }
{
    let packed = was.values.packing.present;
    let rated = was.values.rate.present;
    let scaled = was.values.float_scale.present;
    let group = was.values.group;
    let judged = match kind {
        Kind::SSNC => single(body::ssnc(order, body), packed, rated, true),
        Kind::SSNR => single(body::ssnr(order, body), true, rated, true),
        Kind::SFNC => single(body::sfnc(order, body), packed, rated, scaled),
        Kind::SFNR => single(body::sfnr(order, body), true, rated, scaled),
        Kind::GSNC => grouped(body::gsnc(order, body), group, rated, true),
        Kind::GFNC => grouped(body::gfnc(order, body), group, rated, scaled),
        Kind::SIQP => return siqp(order, body, was),
        Kind::SR => return sr(order, body, was),
        Kind::BW => return bw(order, body, was),
        Kind::GCBW => return gcbw(order, body, was),
        Kind::BWOF => return bwof(order, body, was),
        Kind::CF => return cf(order, body, was),
        Kind::DBFS => return dbfs(order, body, was),
        Kind::DBTG => return dbtg(order, body, was),
        Kind::FFS => return ffs(order, body, was),
        Kind::GIQP => return giqp(order, body, was),
        Kind::GCF => return gcf(order, body, was),
        Kind::GRG => return grg(order, body, was),
        Kind::SOFH => return met(value::judged(body::sofh(order, body)), was),
        Kind::EOFH => return met(value::judged(body::empty(body)), was),
        Kind::IQDC => return iqdc(order, body, was),
        Kind::TEXT => return met(value::judged(body::text(order, body)), was),
        Kind::Unknown => return met(Verdict::Unknown, was),
    };
    data_effect(judged, was)
}
