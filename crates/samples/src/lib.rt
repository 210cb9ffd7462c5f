// Samples: the numbers of one channel, copied out of a ready data chunk: the one at a cursor, or the one that a step
// gave. Here stands where they lie.
#![tactic(auto)]

mod channel;
mod given;
pub mod patterns;
pub mod shorts;

ghost use Rattle.std.specs.Prelude.{◌≡◌, ◌+◌, ◌^◌, ◌≤◌, ◌<◌, length, take, drop, get_or};
ghost use Rattle.samples.specs.Layout.{has_width, alone, paired, real, one_of, arranged, layout};
ghost use Rattle.frame.specs.Place.{header_size};
ghost use Rattle.body.specs.Table.{shaped};
ghost use Rattle.effect.specs.Effect.{effect};
ghost use Rattle.effect.specs.Ready.{ready_data, asked_said};
ghost use Rattle.samples.specs.Inner.Plan.{layout_said, number_bytes, Plans, Tells, Sound};
ghost use Rattle.samples.specs.Copy.{uncopied_number, layout_at, samples_at};

use body::{Data, Kind, Shape};
use frame::Ahead;
use num::{Numbered, Order};
pub use patterns::{patterns_at, patterns_of};
use reader::Cursor;
pub use shorts::{shorts_at, shorts_of};
use state::State;

// Where a channel's numbers lie among those of a chunk: pairs, by the first of them, the step from one to the next and
// how many; or reals, from the first on. A flag and no enum: definitions of specs/Layout.antt (`numbers`, `values_of`)
// and the theorem `pairs-laid` of crates/roundtrip read it.
#[derive(Clone, Copy)]
pub struct Layout {
    pub pairs: bool,
    pub iq: bool,
    pub first: usize,
    pub step: usize,
    pub count: usize,
}

// What is to be copied: where the channel's numbers lie in a part of the stream, and the places between which that part
// lies. Places and no slice: of a struct with a reference each clause would say `x.now.part.now`.
#[derive(Clone, Copy)]
struct Plan {
    layout: Layout,
    from: usize,
    to: usize,
}

// Why no numbers were copied.
#[derive(Clone, Copy, PartialEq, Eq)]
pub enum Uncopied {
    // The cursor's place is past the end.
    PastEnd = 2,
    // The cursor is in step with a state that is not good.
    BadState = 3,
    // What stands at the cursor, or what a step gave, is not data that is ready and of this call's width.
    NotReady = 35,
    // The chunk has no such channel.
    NoChannel = 34,
    // The slice has no room for the channel's numbers.
    TooShort = 33,
}

impl Numbered for Uncopied {
    ghost number_of = { uncopied_number };

    // The number of the refusal: 2, 3, 35, 34 or 33.
    fn number(self) -> u32 {
        self as u32
    }
}

// The width is a flag, as in specs/Layout.antt, and no type: no number is read here, so one code serves both types.
fn has_width(float: bool, shape: Shape) -> bool
    ensures { result ≡ has_width float shape }
{
    match shape {
        Shape::ShortPairs | Shape::ShortReals | Shape::ShortGroup => !float,
        Shape::FloatPairs | Shape::FloatReals | Shape::FloatGroup => float,
    }
}

fn alone(channel: usize, layout: Layout) -> Result<Layout, Uncopied>
    ensures { layout_said result ≡ alone channel layout }
{
    if channel == 0 {
        Ok(layout)
    } else {
        Err(Uncopied::NoChannel)
    }
}

fn paired(shown: State, d: Data) -> Layout
    ensures { result ≡ paired shown d }
{
    let packing = shown.values.packing;
    Layout {
        pairs: true,
        iq: packing.value == 1,
        first: 0,
        step: 1,
        count: d.samples,
    }
}

fn real(d: Data) -> Layout
    ensures { result ≡ real d }
{
    Layout {
        pairs: false,
        iq: false,
        first: 0,
        step: 1,
        count: d.samples,
    }
}

// Channel, state and data go on as they came to the plan: a struct of them would be made and taken apart in each call.
fn one_of(channel: usize, shown: State, d: Data) -> Result<Layout, Uncopied>
    ensures { layout_said result ≡ one_of channel shown d }
{
    let group = shown.values.group;
    let n = group.n;
    if channel >= n {
        return Err(Uncopied::NoChannel);
    }
    let offsets = group.offsets;
    Ok(Layout {
        pairs: true,
        iq: group.iq,
        first: offsets.get(channel).copied().unwrap_or(0) as usize,
        step: group.increment as usize,
        count: d.samples / n,
    })
}

fn arranged(shape: Shape, channel: usize, shown: State, d: Data) -> Result<Layout, Uncopied>
    ensures { layout_said result ≡ arranged shape channel shown d }
{
    match shape {
        Shape::ShortPairs | Shape::FloatPairs => alone(channel, paired(shown, d)),
        Shape::ShortReals | Shape::FloatReals => alone(channel, real(d)),
        Shape::ShortGroup | Shape::FloatGroup => one_of(channel, shown, d),
    }
}

// Where a channel of a ready chunk lies, if the chunk is of the width.
fn layout_in(
    float: bool,
    shaped: Option<Shape>,
    channel: usize,
    shown: State,
    d: Data,
) -> Result<Layout, Uncopied>
    ensures { layout_said result ≡ layout float shaped channel shown d }
{
    let shape = shaped.ok_or(Uncopied::NotReady)?;
    if !has_width(float, shape) {
        return Err(Uncopied::NotReady);
    }
    arranged(shape, channel, shown, d)
}

// The data of the complete chunk of a kind and a size at a place, where it is ready with this state. Place and size are
// what the plan is made of, so the body is cut here.
fn data_at(order: Order, s: &[u8], at: usize, kind: Kind, size: usize, state: State) -> Option<Data>
    requires { at + header_size + size ≤ length s.now }
    ensures { asked_said result
        ≡ ready_data (effect order kind (take size (drop header_size (drop at s.now))) state).says }
{
    let from = at + frame::HEADER;
    let to = from + size;
    effect::ready_data(order, kind, &s[from..to], state)
}

// The plan for that chunk, with the data that it has.
fn plan_in(
    float: bool,
    kind: Kind,
    channel: usize,
    state: State,
    d: Data,
    at: usize,
    size: usize,
) -> Result<Plan, Uncopied>
    requires { (8 ≤ size) × (at + header_size + size < 2 ^ 64) }
    ensures { Plans (layout float (shaped kind) channel state d) at size result }
{
    let layout = layout_in(float, body::shape_of(kind), channel, state, d)?;
    Ok(Plan {
        layout,
        from: at + frame::FRONT,
        to: at + frame::HEADER + size,
    })
}

// The plan for the chunk at a cursor. No step is made: it would move a state that nobody asks for.
fn plan_at(
    order: Order,
    s: &[u8],
    cursor: Cursor,
    channel: usize,
    float: bool,
) -> Result<Plan, Uncopied>
    ensures { Tells s.now (layout_at float order s.now cursor channel)
        (samples_at order s.now cursor) result
        × Sound (number_bytes float) s.now result }
{
    let at = cursor.place;
    if s.len() < at {
        return Err(Uncopied::PastEnd);
    }
    if cursor.in_step & !cursor.state.values.is_good() {
        return Err(Uncopied::BadState);
    }
    // Nothing is ready for a reader that is searching: it has no sample rate.
    if !cursor.in_step {
        return Err(Uncopied::NotReady);
    }
    let Ahead::Chunk { code, size } = frame::ahead_of(order, s, at) else {
        return Err(Uncopied::NotReady);
    };
    let state = cursor.state;
    let kind = body::kind_of(code);
    match data_at(order, s, at, kind, size, state) {
        Some(d) => plan_in(float, kind, channel, state, d, at, size),
        None => Err(Uncopied::NotReady),
    }
}
