// Fifty-nine states: a full one and the empty one; the full one with one value that no state may hold; from 36 to 40
// with one at the edge of what a state may hold; from 41 to 50 with sums that do not agree with their parts; and from
// 51 on with sums that do.
use body::{BandHeld, GroupGains, GroupHertz, GroupPacking, Held, LevelHeld};
use state::{State, Values};

// How many there are.
pub(crate) const STATES: usize = 59;

// The least number above 0.
pub(crate) const LEAST: f32 = f32::from_bits(1);

// The next number above that, twice as large.
pub(crate) const TWICE_LEAST: f32 = f32::from_bits(2);

// The k-th state. Each of its values has a table below, which names the states where it is not that of the full one. The
// types are the library's, flags and counts with them, since a trial gives what no chunk leaves.
pub(crate) fn made(k: usize) -> State {
    if k == 1 {
        return State::empty(false);
    }
    State {
        values: Values {
            packing: packing(k),
            rate: rate(k),
            band: band(k),
            group_band: group_band(k),
            centre: centre(k),
            full_scale: full_scale(k),
            total_gain: total_gain(k),
            float_scale: float_scale(k),
            group: group(k),
            frequencies: frequencies(k),
            gains: gains(k),
            sums: crate::totals::sums(k),
        },
        mark: true,
    }
}

// Held and LevelHeld are two types of the library, so each has a maker here.
fn held(present: bool, value: i64) -> Held {
    Held { present, value }
}

fn level(present: bool, value: f32) -> LevelHeld {
    LevelHeld { present, value }
}

fn packing(k: usize) -> Held {
    match k {
        2 => held(true, 2),
        3 => held(true, -1),
        4 => held(false, 1),
        _ => held(true, 1),
    }
}

fn rate(k: usize) -> Held {
    match k {
        5 => held(true, 0),
        6 => held(false, 1),
        _ => held(true, 48000000000),
    }
}

fn band(k: usize) -> BandHeld {
    match k {
        7 => width(true, -1, -5),
        8 => width(false, 1, 0),
        9 => width(false, 0, 1),
        _ => width(true, 1000, -5),
    }
}

fn width(present: bool, width: i64, offset: i64) -> BandHeld {
    BandHeld {
        present,
        width,
        offset,
    }
}

fn group_band(k: usize) -> Held {
    match k {
        10 => held(true, -1),
        11 => held(false, 1),
        _ => held(true, 7),
    }
}

fn centre(k: usize) -> Held {
    match k {
        12 => held(false, 1),
        _ => held(true, -9),
    }
}

fn full_scale(k: usize) -> LevelHeld {
    match k {
        13 => level(true, f32::INFINITY),
        14 => level(false, -0.0),
        40 => level(true, -0.0),
        _ => level(true, -3.5),
    }
}

fn total_gain(k: usize) -> LevelHeld {
    match k {
        15 => level(true, f32::NAN),
        16 => level(false, 1.0),
        46 | 55 => level(false, 0.0),
        47 | 53 => level(true, f32::MAX),
        52 => level(true, -0.0),
        54 => level(true, LEAST),
        57 => level(true, 16777216.0),
        _ => level(true, 20.0),
    }
}

fn float_scale(k: usize) -> LevelHeld {
    match k {
        17 => level(true, 0.0),
        18 => level(true, -1.0),
        19 => level(true, f32::INFINITY),
        20 => level(false, 1.0),
        36 => level(true, LEAST),
        _ => level(true, 1.0),
    }
}

fn group(k: usize) -> GroupPacking {
    match k {
        21 => packed(17, true, 1, offsets(0, 1, 0)),
        22 => packed(2, true, 3, offsets(0, 1, 0)),
        23 => packed(2, true, 0, offsets(0, 1, 0)),
        24 => packed(2, true, 2, offsets(0x8000_0000, 1, 0)),
        25 => packed(2, true, 2, offsets(0, 1, 1)),
        26 => packed(0, true, 0, offsets(0, 0, 0)),
        27 => packed(0, false, 1, offsets(0, 0, 0)),
        28 => packed(0, false, 0, offsets(1, 0, 0)),
        37 => packed(2, true, 1, offsets(0, 1, 0)),
        38 => packed(2, true, 2, offsets(0, 0x7FFF_FFFF, 0)),
        39 => packed(
            16,
            true,
            16,
            [0, 1, 2, 3, 4, 5, 6, 7, 8, 9, 10, 11, 12, 13, 14, 15],
        ),
        _ => packed(2, true, 2, offsets(0, 1, 0)),
    }
}

fn packed(n: usize, iq: bool, increment: u32, offsets: [u32; 16]) -> GroupPacking {
    GroupPacking {
        n,
        iq,
        increment,
        offsets,
    }
}

// The first two offsets and the sixth.
fn offsets(a: u32, b: u32, f: u32) -> [u32; 16] {
    [a, b, 0, 0, 0, f, 0, 0, 0, 0, 0, 0, 0, 0, 0, 0]
}

fn frequencies(k: usize) -> GroupHertz {
    match k {
        29 => hertz(17, -5, 0),
        30 => hertz(2, -5, 1),
        31 => hertz(0, 0, 0),
        _ => hertz(2, -5, 0),
    }
}

// 5 in the first place, and what the second and the last one hold.
fn hertz(n: usize, b: i64, last: i64) -> GroupHertz {
    GroupHertz {
        n,
        values: [5, b, 0, 0, 0, 0, 0, 0, 0, 0, 0, 0, 0, 0, 0, last],
    }
}

fn gains(k: usize) -> GroupGains {
    match k {
        32 => decibels(17, 1.5, -0.0, 0.0),
        33 => decibels(2, 1.5, f32::INFINITY, 0.0),
        34 => decibels(2, 1.5, -0.0, -0.0),
        35 => decibels(0, 1.0, 0.0, 0.0),
        45 | 51 => decibels(2, 1.5, -20.0, 0.0),
        47 | 53 => decibels(2, f32::MAX, -f32::MAX, 0.0),
        50 | 56 => decibels(0, 0.0, 0.0, 0.0),
        54 => decibels(2, LEAST, 0.0, 0.0),
        57 => decibels(2, 1.0, 3.0, 0.0),
        58 => GroupGains {
            n: 16,
            values: crate::totals::rising(0.0),
        },
        _ => decibels(2, 1.5, -0.0, 0.0),
    }
}

// What the first two places hold, and the last one.
fn decibels(n: usize, a: f32, b: f32, last: f32) -> GroupGains {
    GroupGains {
        n,
        values: [
            a, b, 0.0, 0.0, 0.0, 0.0, 0.0, 0.0, 0.0, 0.0, 0.0, 0.0, 0.0, 0.0, 0.0, last,
        ],
    }
}
