// The reader: a cursor that goes through a lent stream, one item at a step.
#![tactic(auto)]

pub mod part;

ghost use Rattle.std.specs.Prelude.{true, ◌≡◌, ◌+◌, ◌-◌, ◌^◌, ◌<◌, ◌≤◌, length, take, drop};
ghost use Rattle.body.specs.Kind.{kind_of};
ghost use Rattle.effect.specs.Effect.{effect};
ghost use Rattle.effect.specs.Ready.{no_state};
ghost use Rattle.frame.specs.Frames.{width, first};
ghost use Rattle.frame.specs.Place.{header_size, gap};
ghost use Rattle.reader.specs.Cause.{cause_of};
ghost use Rattle.reader.specs.Item.{item_said, item_number};
ghost use Rattle.reader.specs.Items.{items};
ghost use Rattle.reader.specs.IsStep.{IsStep};
ghost use Rattle.reader.specs.Rows.{rows_for};
ghost use Rattle.reader.specs.Step.{new_cursor, before, accepted, lost, accepts, cuts, skips, step_of};

use effect::Verdict;
use frame::{Ahead, BadSize, Stray};
use num::{Numbered, Order};
pub use part::body_of;
use state::State;

// Where a reader stands: its place in the stream, whether it is in step or searching, and the channel state.
// in_step is a flag and no Option: a searching cursor may carry a state, as crates/trials/src/cursors.rt gives.
#[derive(Clone, Copy)]
pub struct Cursor {
    pub place: usize,
    pub in_step: bool,
    pub state: State,
}

// Why bytes were skipped: how the reader came to the place where they begin, and what stands there.
#[derive(Clone, Copy, PartialEq, Eq)]
pub enum Cause {
    // It came searching, as at the start.
    Searching,
    // It came in step, and no sync word stands there.
    NoSync,
    // It came in step, and a header stands there whose size is over the limit.
    Large,
    // It came in step, and a header stands there whose size is within the limit, but no multiple of 4.
    Uneven,
}

// What a step gives.
// No Result: docs/CALLS.md has a step's refusals among its items, and a refused step gives a cursor too.
#[derive(Clone, Copy)]
pub enum Item {
    // Refused: the cursor's place is past the end. Number 2.
    PastEnd,
    // Refused: the cursor is in step with a state that is not good. Number 3.
    BadState,
    // No byte is left.
    End,
    // Bytes that belong to no chunk, and why they were skipped.
    Skipped {
        place: usize,
        length: usize,
        cause: Cause,
    },
    // A chunk that breaks off at the end of the stream.
    Unfinished {
        place: usize,
        length: usize,
    },
    // A chunk: its place, its type as a number, the bytes of its body, and what is said of it.
    Chunk {
        place: usize,
        code: u32,
        size: usize,
        verdict: Verdict,
    },
}

impl Numbered for Item {
    ghost number_of = { λ i. item_number (item_said i) };

    // The number of the refusal, 2 or 3; of a chunk the number of its verdict, so a match; 0 for every other item.
    fn number(self) -> u32 {
        match self {
            Item::PastEnd => 2,
            Item::BadState => 3,
            Item::End | Item::Skipped { .. } | Item::Unfinished { .. } => 0,
            Item::Chunk { verdict, .. } => verdict.number(),
        }
    }
}

// What a step gives: the item; the state that a ready chunk shows, which is empty for every other item; and the cursor
// for the next step.
// `shown` is no Option: what shows nothing shows the empty state (`no_state`, crates/effect/specs/Ready.antt).
#[derive(Clone, Copy)]
pub struct Stepped {
    pub item: Item,
    pub shown: State,
    pub cursor: Cursor,
}

impl Cursor {
    // A cursor to start with: at place 0, searching, with no value in its state.
    pub fn new() -> Self
        ensures { result ≡ new_cursor }
    {
        Cursor {
            place: 0,
            in_step: false,
            state: State::empty(false),
        }
    }

    // The cursor at the place `to`, in step. If it was searching, the step is regained: its state is emptied and the
    // start mark set. A step does this at each chunk.
    pub fn accept(self, to: usize) -> Self
        ensures { result ≡ accepted self to }
    {
        let kept = self.state;
        if self.in_step {
            return Cursor {
                place: to,
                in_step: true,
                state: kept,
            };
        }
        Cursor {
            place: to,
            in_step: true,
            state: State::empty(true),
        }
    }

    // The same cursor, searching. For a caller that knows of a break in the stream.
    pub fn lose_step(mut self) -> Self
        ensures { result ≡ lost self }
    {
        self.in_step = false;
        self
    }

    // The same cursor, its state rebuilt field by field, so that the compiler copies no padding: measured, the figures
    // stand in crates/state beside `Values::rebuilt`.
    fn rebuilt(self) -> Self
        ensures { result ≡ self }
    {
        let state = self.state;
        Cursor {
            place: self.place,
            in_step: self.in_step,
            state: state.rebuilt(),
        }
    }

    // No iterator over steps: a caller keeps the cursor, to copy at it or to go on from it (crates/follow).
    // Reads the item at the cursor and moves the cursor past it. Refused, with the cursor as it came: PastEnd, number
    // 2, where its place is past the end; BadState, number 3, where it is in step with a state that no chunks leave.
    // With no byte left the item is End. A cursor that came from `new` by steps is never refused.
    pub fn step(self, order: Order, s: &[u8]) -> Stepped
        ensures { IsStep result (step_of order s.now self) }
    {
        let cursor = self.rebuilt();
        cursor.go_on(order, s)
    }

    // A step of a cursor that was rebuilt.
    fn go_on(self, order: Order, s: &[u8]) -> Stepped
        ensures { IsStep result (step_of order s.now self) }
    {
        let at = self.place;
        if s.len() < at {
            return still(Item::PastEnd, self);
        }
        if self.in_step & !self.state.values.is_good() {
            return still(Item::BadState, self);
        }
        match frame::ahead_of(order, s, at) {
            Ahead::End => still(Item::End, self),
            Ahead::Chunk { code, size } => {
                let from = at + frame::HEADER;
                let to = from + size;
                chunk(order, code, &s[from..to], self)
            }
            Ahead::Cut => cut(s.len() - at, self),
            Ahead::Stretch(stray) => skip(order, s, self, stray),
        }
    }
}

// An answer that shows nothing and leaves the cursor as it came.
fn still(item: Item, cursor: Cursor) -> Stepped
    ensures { (result.item ≡ item) × (result.shown ≡ no_state) × (result.cursor ≡ cursor) }
{
    Stepped {
        item,
        shown: State::empty(false),
        cursor,
    }
}

// A complete chunk is accepted: the body takes effect on the state.
fn chunk(order: Order, code: u32, body: &[u8], cursor: Cursor) -> Stepped
    requires { cursor.place + header_size + length body.now < 2 ^ 64 }
    ensures { IsStep result (accepts cursor code (length body.now)
        (effect order (kind_of code) body.now (before cursor.in_step cursor.state))) }
{
    let place = cursor.place;
    let size = body.len();
    let next = cursor.accept(place + frame::HEADER + size);
    let taken = effect::take(order, body::kind_of(code), body, next.state);
    let after = taken.state;
    let shown = taken.shown;
    let verdict = taken.verdict;
    Stepped {
        item: Item::Chunk {
            place,
            code,
            size,
            verdict,
        },
        shown,
        cursor: Cursor {
            place: next.place,
            in_step: next.in_step,
            state: after,
        },
    }
}

// An unfinished end of so many bytes.
fn cut(left: usize, cursor: Cursor) -> Stepped
    requires { cursor.place + left < 2 ^ 64 }
    ensures { IsStep result (cuts cursor left) }
{
    let place = cursor.place;
    let state = cursor.state;
    Stepped {
        item: Item::Unfinished {
            place,
            length: left,
        },
        shown: State::empty(false),
        cursor: Cursor {
            place: place + left,
            in_step: cursor.in_step,
            state,
        },
    }
}

// Why a stretch is skipped: a reader that comes searching was searching; one in step names what stands there.
fn cause_of(in_step: bool, stray: Stray) -> Cause
    ensures { result ≡ cause_of in_step stray }
{
    if !in_step {
        return Cause::Searching;
    }
    match stray {
        Stray::NoSync => Cause::NoSync,
        Stray::Bad(BadSize::Large) => Cause::Large,
        Stray::Bad(BadSize::Uneven) => Cause::Uneven,
    }
}

// The stretch up to where a search stops is skipped.
fn skip(order: Order, s: &[u8], cursor: Cursor, stray: Stray) -> Stepped
    requires { cursor.place ≤ length s.now }
    ensures { IsStep result (skips cursor stray (gap order (drop cursor.place s.now))) }
{
    let place = cursor.place;
    let cause = cause_of(cursor.in_step, stray);
    let to = stop(order, s, place);
    let mut next = cursor.lose_step();
    next.place = to;
    Stepped {
        item: Item::Skipped {
            place,
            length: to - place,
            cause,
        },
        shown: State::empty(false),
        cursor: next,
    }
}

// The place where a search stops, or the end.
fn stop(order: Order, s: &[u8], from: usize) -> usize
    requires { from ≤ length s.now }
    ensures { (result ≡ from + gap order (drop from s.now)) × (result ≤ length s.now) }
{
    frame::search(order, s, from).unwrap_or(s.len())
}

// The place past the frame that stands at a place.
fn past(order: Order, s: &[u8], place: usize) -> usize
    requires { place < length s.now }
    ensures { result ≡ place + width (first order (drop place s.now)) }
{
    match frame::ahead_of(order, s, place) {
        Ahead::Chunk { size, .. } => place + frame::HEADER + size,
        Ahead::Cut => s.len(),
        Ahead::Stretch(_) => stop(order, s, place),
        Ahead::End => place,
    }
}

// How many items a stream has: as many as steps from a new cursor give before End.
pub fn count(order: Order, s: &[u8]) -> usize
    ensures { result ≡ length (items order s.now) }
{
    let mut n = 0;
    let mut place = 0;
    // What stands at a place says how far to go on, so no `for` has the places.
    while place < s.len() {
        place = past(order, s, place);
        n += 1;
    }
    n
}

// How many rows a table needs for the items of any stream of so many bytes: two for each whole thirteen bytes, and two
// more. No such stream has more items, in either order.
pub fn rows_for(bytes: usize) -> usize
    ensures { result ≡ rows_for bytes }
{
    2 * (bytes / 13) + 2
}
