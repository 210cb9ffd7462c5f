// The file check of a stream, in both orders.
use filecheck::BadFile;
use num::Order;
use std::io;

pub(crate) fn both(rt: &impl Print, s: &[u8]) -> io::Result<()> {
    said(rt, "check big", filecheck::check(Order::Big, s))?;
    said(rt, "check little", filecheck::check(Order::Little, s))
}

// `good` and the number of items, or `refused`, the number and the place. The numbers do not come from the library, so
// that a wrong one there shows.
fn said(rt: &impl Print, head: &str, checked: Result<usize, BadFile>) -> io::Result<()> {
    match checked {
        Ok(items) => println!(rt; "{head} good {items}"),
        Err(BadFile::NoHeader) => println!(rt; "{head} refused 41 0"),
        Err(BadFile::HeaderNotEnded(place)) => println!(rt; "{head} refused 42 {place}"),
        Err(BadFile::SecondHeader(place)) => println!(rt; "{head} refused 43 {place}"),
        Err(BadFile::NotAChunk(place)) => println!(rt; "{head} refused 44 {place}"),
    }
}
