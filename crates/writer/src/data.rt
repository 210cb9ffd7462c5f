// What the data kinds share: a record from a time and the numbers of its samples, laid straight behind the front of its
// chunk.
ghost use Rattle.std.specs.Prelude.{◌≡◌, ◌++◌, ◌+◌, ◌≤◌, length};
ghost use Rattle.body.specs.Fault.{read_said};
ghost use Rattle.lay.specs.Numbers.{int64, numbers_of};
ghost use Rattle.writer.specs.Inner.Data.{BySize, whole_samples};
ghost use Rattle.writer.specs.Write.{write_of, written_out, written_said};

use crate::Unwritten;
use body::Fault;
use num::{Number, Order};

// Whether so many bytes of numbers are whole samples of `unit` bytes.
#[tactic(auto, using(crate::proofs::Bodies::whole_rest))]
fn whole(rest: usize, unit: usize) -> Result<(), Fault>
    requires { 1 ≤ unit }
    ensures { read_said result ≡ whole_samples unit (8 + rest) }
{
    if rest % unit == 0 {
        Ok(())
    } else {
        Err(Fault::Size)
    }
}

// A record of a data kind whose samples have `unit` bytes each. Where a size is more than a number holds, the largest
// number stands for it, which is no good size either.
pub(crate) fn write<const N: usize, T: Number<N>>(
    order: Order,
    code: u32,
    unit: usize,
    time: i64,
    samples: &[T],
    out: &mut [u8],
    place: usize,
) -> Result<usize, Unwritten>
    requires positive { 1 ≤ unit }
    requires sized { BySize order code unit }
    ensures said { written_said result
        ≡ write_of order code (int64 order time ++ numbers_of order N T.bits samples.now) (length out.old) place }
    ensures left { out.new
        ≡ written_out order code (int64 order time ++ numbers_of order N T.bits samples.now) out.old place }
{
    let rest = samples.len().saturating_mul(N);
    let size = rest.saturating_add(8);
    let next = crate::place_past(size, out.len(), place, || whole(rest, unit))?;
    crate::put_header(order, code, size as u32, out, place);
    lay::run(order, &[time], out, place + frame::HEADER);
    lay::run(order, samples, out, place + frame::FRONT);
    Ok(next)
}
