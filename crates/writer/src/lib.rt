// The writer: a record, its type and its body, laid as a chunk at a place of a lent slice.
#![tactic(auto)]

mod data;
pub mod patterns;
pub mod shorts;

ghost use Rattle.std.specs.Prelude.{◌≡◌, ◌+◌, ◌≤◌, ◌<◌, IfOk, length};
ghost use Rattle.num.specs.Answer.{Answer};
ghost use Rattle.frame.specs.Frames.{chunk_bytes};
ghost use Rattle.frame.specs.Place.{header_size, size_limit};
ghost use Rattle.lay.specs.Splice.{splice};
ghost use Rattle.writer.specs.Inner.Write.{header_bytes, Judges};
ghost use Rattle.writer.specs.declared.Unwritten.TheVariants.{Malformed};
ghost use Rattle.writer.specs.Write.{write_by, write_of, written_out, written_said, unwritten_number};

use body::Fault;
use num::{Numbered, Order};
pub use patterns::{gfnc, sfnc, sfnr};
pub use shorts::{gsnc, ssnc, ssnr};

// Why a record was not written.
#[derive(Clone, Copy, PartialEq, Eq)]
pub enum Unwritten {
    // The place is past the end of the slice: number 2.
    PastEnd,
    // The body's size is not good: number 32.
    BadSize,
    // A body that its type does not allow: numbers 11 to 15.
    Malformed(Fault),
    // The room left is under a header and the size: number 31.
    NoRoom,
}

// The number of the refusal: 2, 32, 11 to 15 or 31. A match, since a malformed body has the number of its fault.
impl Numbered for Unwritten {
    ghost number_of = { unwritten_number };

    fn number(self) -> u32 {
        match self {
            Unwritten::PastEnd => 2,
            Unwritten::BadSize => 32,
            Unwritten::Malformed(fault) => fault.number(),
            Unwritten::NoRoom => 31,
        }
    }
}

impl From<Fault> for Unwritten {
    ghost from_gives = { λ fault e. e ≡ Malformed fault };

    fn from(fault: Fault) -> Unwritten {
        Unwritten::Malformed(fault)
    }
}

// A header: sync word, type and size. Order, type, slice and place go from call to call as `write` is given them: a
// struct of them would be made and taken apart in each.
#[tactic(auto, using(crate::proofs::Laws::laid))]
fn put_header(order: Order, code: u32, size: u32, out: &mut [u8], place: usize)
    requires { place + header_size ≤ length out.old }
    ensures { out.new ≡ splice out.old place (header_bytes order code size) }
{
    let words = [frame::SYNC, code, size];
    lay::run(order, &words, out, place);
}

// A whole chunk: header and body.
#[tactic(auto, using(crate::proofs::Laws::laid))]
fn put_chunk(order: Order, code: u32, body: &[u8], out: &mut [u8], place: usize)
    requires room { place + header_size + length body.now ≤ length out.old }
    requires small { length body.now < 4294967296 }
    ensures { out.new ≡ splice out.old place (chunk_bytes order code body.now) }
{
    let size = body.len() as u32;
    put_header(order, code, size, out, place);
    lay::bytes(body, out, place + frame::HEADER);
}

// The place past a chunk whose body has `size` bytes, at a place of a slice of `whole` bytes, or why it is not written.
// The body is judged where its size is good, and the room counts where it is well-formed.
fn place_past<J: FnOnce() -> Result<(), Fault>>(
    size: usize,
    whole: usize,
    place: usize,
    judge: J,
) -> Result<usize, Unwritten>
    requires { J.pre judge }
    ensures room { IfOk result (λ _. (size ≤ size_limit) × (place + header_size + size ≤ whole)) }
    ensures said { (judged : Answer (Unit {0})) → Judges (J.post judge) judged
        → written_said result ≡ write_by judged size whole place }
{
    if whole < place {
        return Err(Unwritten::PastEnd);
    }
    if !frame::good_size(size) {
        return Err(Unwritten::BadSize);
    }
    judge()?;
    if whole - place < frame::HEADER + size {
        return Err(Unwritten::NoRoom);
    }
    Ok(place + frame::HEADER + size)
}

// Writes a record, its type and its body, as a chunk at a place of out, and answers with the place past it. Refused, in
// this order: PastEnd 2, BadSize 32, Malformed 11 to 15 where the type is known and the body breaks its rule, NoRoom
// 31. A refused call leaves out as it was. What the chunk does not fill keeps its bytes.
pub fn write(
    order: Order,
    code: u32,
    body: &[u8],
    out: &mut [u8],
    place: usize,
) -> Result<usize, Unwritten>
    ensures said { written_said result ≡ write_of order code body.now (length out.old) place }
    ensures left { out.new ≡ written_out order code body.now out.old place }
{
    let next = place_past(
        body.len(),
        out.len(),
        place,
        || body::check(order, body::kind_of(code), body),
    )?;
    put_chunk(order, code, body, out, place);
    Ok(next)
}
