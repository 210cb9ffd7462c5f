// The listing: its lines, and the words of the dump, as texts of ASCII handed back by value. No `Display`: by its contract
// it may fail to write, and what a text holds is promised byte for byte.
#![tactic(auto)]

mod characters;
mod chunk;
mod digits;
mod lines;
mod string;
pub mod words;

pub use characters::{Piece, piece_at};
pub use lines::{first_line, item_line, last_line, long_line, none_line};
pub use string::{Text, word};
pub use words::{cause, decimal, hex_word, newline, number, short};

// What a line of the dump is about.
#[derive(Clone, Copy, PartialEq, Eq)]
pub enum Label {
    // The time of a chunk's first sample.
    Time,
    // The start mark.
    Mark,
    // SIQP.
    Packing,
    // SR__.
    Rate,
    // BW__.
    Bandwidth,
    // GCBW.
    GroupBandwidth,
    // CF__.
    Frequency,
    // dBFS.
    FullScale,
    // dBTG.
    TotalGain,
    // FFS_.
    FloatScale,
    // GIQP.
    GroupPacking,
    // GCF_.
    GroupFrequencies,
    // GRG_.
    GroupGains,
    // dBTG and a channel's gain, added.
    Sum,
    // The samples.
    Samples,
    // The characters of a TEXT.
    Text,
    // The number of a SOFH.
    Value,
    // Why bytes were skipped.
    Cause,
}
