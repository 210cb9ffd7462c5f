// BWOF, the kind that is two numbers.
ghost use Rattle.std.specs.Prelude.{◌++◌, ◌≡◌, length};
ghost use Rattle.body.specs.Kind.{code_of};
ghost use Rattle.body.specs.declared.kinds.Kind.TheVariants as K;
ghost use Rattle.lay.specs.Numbers.{int64};
ghost use Rattle.writer.specs.Write.{write_of, written_out, written_said};

use num::Order;
use writer::Unwritten;

// Writes a BWOF record: the bandwidth and its offset from the centre frequency, in µHz. Refused as `writer::write` is:
// a negative bandwidth with 12.
pub fn bwof(
    order: Order,
    bandwidth: i64,
    offset: i64,
    out: &mut [u8],
    place: usize,
) -> Result<usize, Unwritten>
    ensures said { written_said result
        ≡ write_of order (code_of K.BWOF) (int64 order bandwidth ++ int64 order offset)
        (length out.old) place }
    ensures left { out.new
        ≡ written_out order (code_of K.BWOF) (int64 order bandwidth ++ int64 order offset) out.old place }
{
    let mut body = [0u8; 16];
    lay::run(order, &[bandwidth, offset], &mut body, 0);
    writer::write(order, body::kinds::BWOF, &body, out, place)
}
