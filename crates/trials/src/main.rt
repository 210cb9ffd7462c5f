// Runs each stream of the file `streams`: its dump, the file check in both orders, its items counted and the rows for
// them, digests of what copying and writing answer and leave, and of what cursors made at will are answered. The file
// has the number of streams, then for each its length and its bytes; both numbers take four bytes, the lowest first.
#![tactic(auto)]

mod check;
mod copies;
mod cursors;
mod digest;
mod rows;
mod run;
mod states;
mod totals;
mod values;
mod writes;

use std::io::Read;
use std::{fs, io};

// The next number of the file, or 0 at its end.
fn next(file: &mut impl Read) -> io::Result<usize> {
    let mut bytes = [0u8; 4];
    input::filled(file, &mut bytes)?;
    Ok(u32::from_le_bytes(bytes) as usize)
}

// All trials of one stream.
fn trial(rt: &impl Print, s: &[u8]) -> io::Result<()> {
    show::dump(rt, s)?;
    check::both(rt, s)?;
    rows::both(rt, s)?;
    copies::both(rt, s)?;
    writes::both(rt, s)?;
    values::both(rt, s)?;
    cursors::both(rt, s)
}

// The streams one after the other. One without room is tried as an empty one.
fn streams(rt: &impl Print, file: &mut impl Read) -> io::Result<()> {
    let mut buf = [0u8; lister::STREAM_ROOM];
    for _ in 0..next(file)? {
        let size = next(file)?;
        let room = if size <= buf.len() { size } else { 0 };
        let n = input::filled(file, &mut buf[..room])?;
        trial(rt, &buf[..n])?;
    }
    Ok(())
}

// Where the file cannot be opened, all that is written is why, to standard error.
fn main(rt: HostRuntime) -> io::Result<()> {
    match fs::open(&rt, "streams") {
        Ok(mut file) => streams(&rt, &mut file),
        Err(error) => eprintln!(rt; "streams: {error}"),
    }
}
