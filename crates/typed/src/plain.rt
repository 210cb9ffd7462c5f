// TEXT, written from its bytes.
ghost use Rattle.std.specs.Prelude.{◌≡◌, length, replicate};
ghost use Rattle.frame.specs.Place.{size_limit};
ghost use Rattle.body.specs.Kind.{code_of};
ghost use Rattle.body.specs.declared.kinds.Kind.TheVariants as K;
ghost use Rattle.writer.specs.Write.{write_of, written_out, written_said};
ghost use Rattle.typed.specs.Texts.{text_body};

use num::Order;
use writer::Unwritten;

// The longest text: the largest body without the four bytes of the length.
const LONGEST: usize = frame::LIMIT - 4;

// Room for the largest body.
fn room() -> [u8; frame::LIMIT]
    ensures { result ≡ replicate size_limit 0 }
{
    [0u8; frame::LIMIT]
}

// Writes a TEXT record from the bytes of the text: its length goes before it, and zero bytes up to the next multiple of
// 4 behind it. Refused as `writer::write` is: a text that is too long with 32, one that is not UTF-8 with 15.
pub fn text(order: Order, bytes: &[u8], out: &mut [u8], place: usize) -> Result<usize, Unwritten>
    ensures said { written_said result
        ≡ write_of order (code_of K.TEXT) (text_body order bytes.now) (length out.old) place }
    ensures left { out.new
        ≡ written_out order (code_of K.TEXT) (text_body order bytes.now) out.old place }
{
    let n = bytes.len();
    if out.len() < place {
        return Err(Unwritten::PastEnd);
    }
    if LONGEST < n {
        return Err(Unwritten::BadSize);
    }
    let mut body = room();
    lay::run(order, &[n as u32], &mut body, 0);
    lay::bytes(bytes, &mut body, 4);
    let end = 4 + (n + 3) / 4 * 4;
    writer::write(order, body::kinds::TEXT, &body[..end], out, place)
}
