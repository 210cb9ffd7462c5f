// The chunks of a stream written as records into a slice of 512 bytes: each also short of its last byte, and at a place
// past the end.
use crate::run::{Run, stream};
use num::Order;
use std::io;

pub(crate) fn both(rt: &impl Print, s: &[u8]) -> io::Result<()> {
    crate::digest::written(
        rt,
        "writes",
        |from, to| stream(
            from,
            s,
            &mut [0xAA; 512],
            |code, body, out, run| record(to, code, body, out, run),
        ),
    )
}

// A record past the end, a record without its last byte, and the record.
fn record(order: Order, code: u32, body: &[u8], out: &mut [u8], run: Run) -> Run {
    let past = one(order, code, body, out, Run { place: 513, ..run });
    let digest = past.digest;
    let short = one(order, code, without_last(body), out, Run { digest, ..run });
    let digest = short.digest;
    one(order, code, body, out, Run { digest, ..run })
}

// By cases: `split_last` gives an Option, and an empty body has to stay as it is.
fn without_last(body: &[u8]) -> &[u8] {
    match body {
        [front @ .., _] => front,
        [] => body,
    }
}

// One call of the writer.
fn one(order: Order, code: u32, body: &[u8], out: &mut [u8], run: Run) -> Run {
    run.told(writer::write(order, code, body, out, run.place))
}
