// Bodies: the 22 kinds, and for each a checker of its body, which answers on any slice.
#![tactic(auto)]

pub mod faults;
pub mod groups;
pub mod kinds;
pub mod levels;
pub mod numbers;
pub mod plain;
pub mod sampled;
pub mod values;
pub mod verdict;

pub use faults::Fault;
pub use groups::{
    GroupGains, GroupHertz, GroupPacking, gcf, giqp, grg, no_gains, no_hertz, no_packing,
};
pub use kinds::{Kind, code_of, kind_of, letters_of};
pub use levels::{Level, dbfs, dbtg, ffs, pattern};
pub use numbers::{Band, bw, bwof, cf, siqp, sofh, sr};
pub use plain::{empty, text};
pub use sampled::{Data, Shape, gfnc, gsnc, sfnc, sfnr, shape_of, ssnc, ssnr};
pub use values::{BandHeld, Held, LevelHeld, no_band, no_level, no_number};
pub use verdict::check;
