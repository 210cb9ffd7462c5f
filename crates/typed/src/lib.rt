// A record of a kind, written from its values: the raw call on the bytes that they make. Each takes the order, the
// slice and the place as `writer::write` does, in whose words its promise is said: a struct of them would say no more.
#![tactic(auto)]

pub mod band;
pub mod empty;
pub mod group;
pub mod levels;
pub mod number;
pub mod plain;

pub use band::bwof;
pub use empty::{eofh, iqdc};
pub use group::{gcf, giqp, grg};
pub use levels::level;
pub use number::{bw, cf, gcbw, siqp, sofh, sr};
pub use plain::text;
