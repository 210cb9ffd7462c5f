// The lines of a dump under a chunk's line.
use crate::line::{Line, write_line};
use body::Kind;
use effect::Verdict;
use listing::{Label, decimal};
use num::Order;
use reader::{Item, Stepped};
use std::io;

// What the item of a step shows: data that waits or is ready, a text, and the number of a file's header.
pub(crate) fn shown(rt: &impl Print, order: Order, s: &[u8], stepped: Stepped) -> io::Result<()> {
    let item = stepped.item;
    let Item::Chunk { code, verdict, .. } = item else {
        return Ok(());
    };
    match verdict {
        Verdict::Waits(_, time) => time_line(rt, time),
        Verdict::Ready(data) => {
            time_line(rt, data.time)?;
            crate::values::all(rt, stepped.shown)?;
            crate::channels::each(rt, order, s, stepped, code)
        }
        Verdict::Good => plain(rt, order, code, reader::body_of(s, item)),
        Verdict::Unknown | Verdict::Malformed(_) | Verdict::NotCovered => Ok(()),
    }
}

// The time of the first sample.
fn time_line(rt: &impl Print, time: i64) -> io::Result<()> {
    write_line(rt, Label::Time, &[decimal(time)])
}

// A well-formed chunk without samples: a text, or the number of a file's header.
fn plain(rt: &impl Print, order: Order, code: u32, body: &[u8]) -> io::Result<()> {
    match body::kind_of(code) {
        Kind::TEXT => {
            if let Ok(n) = body::text(order, body) {
                text(rt, body, n)?;
            }
        }
        Kind::SOFH => {
            if let Ok(value) = body::sofh(order, body) {
                write_line(rt, Label::Value, &[decimal(value)])?;
            }
        }
        _ => {}
    }
    Ok(())
}

// A text of n bytes, which stand behind its length: a well-formed body has them all. n stands beside the body, since
// body::text answers a length (docs/CALLS.md) and no slice.
fn text(rt: &impl Print, body: &[u8], n: usize) -> io::Result<()> {
    match body.get(4..).and_then(|text| text.get(..n)) {
        Some(text) => text_line(rt, text),
        None => Ok(()),
    }
}

// Its characters, piece by piece.
#[tactic(auto, using(crate::proofs::Taken::taken))]
fn text_line(rt: &impl Print, s: &[u8]) -> io::Result<()> {
    let mut line = Line::start(rt, Label::Text)?.with(rt, listing::word(b" "))?;
    let mut at = 0;
    // A piece takes one byte or two, so no `for` has the places.
    while at < s.len() {
        let piece = listing::piece_at(s, at);
        line = line.with(rt, piece.text)?;
        at += piece.length;
    }
    line.end(rt)
}
