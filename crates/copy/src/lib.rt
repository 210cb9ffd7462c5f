// The samples of one channel, copied out of the sample bytes of a data chunk into a lent slice.
#![tactic(auto)]

mod laid;
mod pairs;
mod patterns;
mod runs;
mod sample;
mod shorts;

pub use pairs::Pairs;
pub use sample::Sample;
