// The lines of a dump for the values of a state that are present.
use crate::line::{Line, write_line};
use crate::numbers::first;
use body::{BandHeld, Held, LevelHeld};
use listing::{Label, Text, decimal, hex_word, number};
use state::{GainSums, State};
use std::io;

// The start mark, then each value, in the order of the kinds.
pub(crate) fn all(rt: &impl Print, state: State) -> io::Result<()> {
    write_line(rt, Label::Mark, &[flag(state.mark)])?;
    let values = state.values;
    held(rt, Label::Packing, values.packing)?;
    held(rt, Label::Rate, values.rate)?;
    band(rt, values.band)?;
    held(rt, Label::GroupBandwidth, values.group_band)?;
    held(rt, Label::Frequency, values.centre)?;
    level(rt, Label::FullScale, values.full_scale)?;
    level(rt, Label::TotalGain, values.total_gain)?;
    level(rt, Label::FloatScale, values.float_scale)?;
    let packing = values.group;
    let first = [flag(packing.iq), number(packing.increment as usize)];
    let offset = |place: u32| number(place as usize);
    group(
        rt,
        Label::GroupPacking,
        packing.n,
        &first,
        &packing.offsets,
        offset,
    )?;
    let hertz = values.frequencies;
    group(
        rt,
        Label::GroupFrequencies,
        hertz.n,
        &[],
        &hertz.values,
        decimal,
    )?;
    let gains = values.gains;
    group(rt, Label::GroupGains, gains.n, &[], &gains.values, pattern)?;
    sums(rt, values.sums)
}

// 1 or 0.
fn flag(yes: bool) -> Text {
    number(usize::from(yes))
}

// The line of a value, where it is present.
fn shown(rt: &impl Print, which: Label, present: bool, words: &[Text]) -> io::Result<()> {
    if present {
        write_line(rt, which, words)?;
    }
    Ok(())
}

fn held(rt: &impl Print, which: Label, value: Held) -> io::Result<()> {
    shown(rt, which, value.present, &[decimal(value.value)])
}

fn band(rt: &impl Print, value: BandHeld) -> io::Result<()> {
    let words = [decimal(value.width), decimal(value.offset)];
    shown(rt, Label::Bandwidth, value.present, &words)
}

fn level(rt: &impl Print, which: Label, value: LevelHeld) -> io::Result<()> {
    shown(rt, which, value.present, &[pattern(value.value)])
}

// A float's pattern. No state that is shown holds a NaN.
fn pattern(x: f32) -> Text {
    hex_word(body::pattern(x))
}

// The line of a group of n channels, where there is one: n, some words of the group, and a word for each channel. n goes
// beside the sixteen places, as the library's types have it (crates/body/src/groups.rt).
fn group<T: Copy, F: Fn(T) -> Text>(
    rt: &impl Print,
    which: Label,
    n: usize,
    words: &[Text],
    values: &[T],
    word: F,
) -> io::Result<()>
    requires { F.IsAlwaysCallable word }
{
    if 0 < n {
        Line::start(rt, which)?
            .with(rt, number(n))?
            .with_all(rt, words)?
            .with_each(rt, first(values, n), word)?
            .end(rt)?;
    }
    Ok(())
}

// A line for each channel that has a sum.
fn sums(rt: &impl Print, sums: GainSums) -> io::Result<()> {
    for (channel, (is_present, value)) in sums.present.iter().zip(sums.values.iter()).enumerate() {
        shown(
            rt,
            Label::Sum,
            *is_present,
            &[number(channel), pattern(*value)],
        )?;
    }
    Ok(())
}
