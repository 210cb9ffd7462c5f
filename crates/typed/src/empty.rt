// The kinds that are empty.
// Each has a call of its own: one call for both would have to refuse the kinds that are not empty, which no number of
// refusal says.
ghost use Rattle.std.specs.Prelude.{◌≡◌, [], length};
ghost use Rattle.body.specs.Kind.{code_of};
ghost use Rattle.body.specs.declared.kinds.Kind.TheVariants as K;
ghost use Rattle.writer.specs.Write.{write_of, written_out, written_said};

use num::Order;
use writer::Unwritten;

// Writes an EOFH record, the end of a file's header. Refused with 2 or 31 alone.
pub fn eofh(order: Order, out: &mut [u8], place: usize) -> Result<usize, Unwritten>
    ensures said { written_said result ≡ write_of order (code_of K.EOFH) [] (length out.old) place }
    ensures left { out.new ≡ written_out order (code_of K.EOFH) [] out.old place }
{
    writer::write(order, body::kinds::EOFH, &[], out, place)
}

// Writes an IQDC record, a break in the samples. Refused with 2 or 31 alone.
pub fn iqdc(order: Order, out: &mut [u8], place: usize) -> Result<usize, Unwritten>
    ensures said { written_said result ≡ write_of order (code_of K.IQDC) [] (length out.old) place }
    ensures left { out.new ≡ written_out order (code_of K.IQDC) [] out.old place }
{
    writer::write(order, body::kinds::IQDC, &[], out, place)
}
