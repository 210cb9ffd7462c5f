// The lines of a dump for the samples of each channel.
use crate::line::Line;
use crate::numbers::first;
use body::Shape;
use listing::{Label, Text, hex_word, number, short};
use num::Order;
use reader::Stepped;
use samples::Uncopied;
use std::io;

// The samples of the ready chunk that a step gave. Order, slice and step go on one by one, as the calls of samples take
// them: a struct would be taken apart again at each call.
pub(crate) fn each(
    rt: &impl Print,
    order: Order,
    s: &[u8],
    stepped: Stepped,
    code: u32,
) -> io::Result<()> {
    if let Some(shape) = body::shape_of(body::kind_of(code)) {
        let group = stepped.shown.values.group;
        let n = channels(shape, group.n);
        lines(rt, order, s, stepped, n, is_float(shape))?;
    }
    Ok(())
}

// How many channels there are, where a group has n. Each shape is named here and below, so that none is forgotten.
fn channels(shape: Shape, n: usize) -> usize {
    match shape {
        Shape::ShortGroup | Shape::FloatGroup => n,
        Shape::ShortPairs | Shape::ShortReals | Shape::FloatPairs | Shape::FloatReals => 1,
    }
}

// Whether the samples are floats. The crate samples has this table too, and no call that asks it.
fn is_float(shape: Shape) -> bool {
    match shape {
        Shape::FloatPairs | Shape::FloatReals | Shape::FloatGroup => true,
        Shape::ShortPairs | Shape::ShortReals | Shape::ShortGroup => false,
    }
}

// A line for each channel. The width is a flag: a chunk's kind tells it while the program runs, and here it chooses the
// type, the call and the room together.
fn lines(
    rt: &impl Print,
    order: Order,
    s: &[u8],
    stepped: Stepped,
    channels: usize,
    float: bool,
) -> io::Result<()> {
    for channel in 0..channels {
        if float {
            patterns(rt, order, s, stepped, channel)?;
        } else {
            shorts(rt, order, s, stepped, channel)?;
        }
    }
    Ok(())
}

// 16-bit numbers, in decimal. There is room for as many as a stream of the most bytes can hold. Each width has a function
// of its own, so that the rooms of both do not lie on the stack at once.
fn shorts(
    rt: &impl Print,
    order: Order,
    s: &[u8],
    stepped: Stepped,
    channel: usize,
) -> io::Result<()> {
    let mut out = [0; 32768];
    let copied = samples::shorts_of(order, s, stepped, channel, &mut out);
    samples_line(rt, channel, copied, &out, short)
}

// Patterns of floats, in hex digits.
fn patterns(
    rt: &impl Print,
    order: Order,
    s: &[u8],
    stepped: Stepped,
    channel: usize,
) -> io::Result<()> {
    let mut out = [0; 16384];
    let copied = samples::patterns_of(order, s, stepped, channel, &mut out);
    samples_line(rt, channel, copied, &out, hex_word)
}

// The line of a channel: its number, the count of its numbers, and these.
fn samples_line<T: Copy, F: Fn(T) -> Text>(
    rt: &impl Print,
    channel: usize,
    copied: Result<usize, Uncopied>,
    out: &[T],
    word: F,
) -> io::Result<()>
    requires { F.IsAlwaysCallable word }
{
    if let Ok(n) = copied {
        Line::start(rt, Label::Samples)?
            .with_all(rt, &[number(channel), number(n)])?
            .with_each(rt, first(out, n), word)?
            .end(rt)?;
    }
    Ok(())
}
