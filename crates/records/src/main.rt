// Records written one after the other into a slice, and read back from it.
#![tactic(auto)]

use num::Order;
use show::print;
use std::io;
use writer::Unwritten;

fn main(rt: HostRuntime) -> io::Result<()> {
    let mut out = [0u8; 256];
    let written = records(Order::Big, &mut out);
    match written {
        // Exactly the bytes that were written.
        Ok(end) => show::dump(&rt, out.get(..end).unwrap_or(&[])),
        Err(_) => refused(&rt, written),
    }
}

// Four records, each at the place that the call before it gave. `?` hands on why a call was refused.
fn records(order: Order, out: &mut [u8]) -> Result<usize, Unwritten> {
    let a = typed::siqp(order, 1, out, 0)?;
    let b = typed::sr(order, 48_000_000_000, out, a)?;
    let c = typed::cf(order, 98_500_000_000_000, out, b)?;
    let time = 1_700_000_000_000_000_000;
    let pairs = [1000, -1000, 2000, -2000];
    writer::ssnc(order, time, &pairs, out, c)
}

// Why a record was not written.
fn refused(rt: &impl Print, written: Result<usize, Unwritten>) -> io::Result<()> {
    print(rt, answers::written(written))?;
    print(rt, listing::newline())
}
