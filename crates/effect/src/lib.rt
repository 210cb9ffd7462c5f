// The effect of a chunk on the channel state: what is said of it, what it shows, and what it leaves.
#![tactic(auto)]

pub mod ask;
pub mod effects;
mod ready;
mod value;

ghost use Rattle.effect.specs.Says.{lack_number, verdict_said, says_number};

pub use ask::ready_data;
use body::{Data, Fault};
pub use effects::take;
use num::Numbered;
use state::State;

// What a well-formed data chunk lacks.
#[derive(Clone, Copy, PartialEq, Eq)]
pub enum Lack {
    // SIQP, or GIQP for a group.
    Packing = 21,
    // SR__.
    Rate = 22,
    // FFS_.
    Scale = 23,
}

impl Numbered for Lack {
    ghost number_of = { lack_number };

    // The number of the lack, 21 to 23.
    fn number(self) -> u32 {
        self as u32
    }
}

// What the reader says of a chunk that it accepts. No Result: Good and Unknown are no errors and have no data, and data
// that waits has a time.
#[derive(Clone, Copy)]
pub enum Verdict {
    // Well-formed, and no data.
    Good,
    // Of a type that no kind has.
    Unknown,
    // Of a known kind, with a body that the kind does not allow: numbers 11 to 15.
    Malformed(Fault),
    // A group chunk whose channels do not cover its pairs: number 16.
    NotCovered,
    // Data that waits, with its time.
    Waits(Lack, i64),
    // Data that is ready.
    Ready(Data),
}

impl Numbered for Verdict {
    ghost number_of = { λ v. says_number (verdict_said v) };

    // The number of what is wrong, 11 to 16, or of what is lacking, 21 to 23; 0 for a chunk that is well-formed,
    // unknown or ready. A match, since two cases have the number of what they carry.
    fn number(self) -> u32 {
        match self {
            Verdict::Good | Verdict::Unknown | Verdict::Ready(_) => 0,
            Verdict::Malformed(fault) => fault.number(),
            Verdict::NotCovered => 16,
            Verdict::Waits(lack, _) => lack.number(),
        }
    }
}

// What a chunk does: the verdict on it; the state that it shows, which is empty unless it is ready data; and the state
// after it.
// `shown` is no Option: what shows nothing shows the empty state (`no_state`, specs/Ready.antt).
#[derive(Clone, Copy)]
pub struct Taken {
    pub verdict: Verdict,
    pub shown: State,
    pub state: State,
}
