// The 32-bit patterns of a channel. Those of shorts.rt have the same calls: docs/CALLS.md lists each by its name, and
// the code of both is that of channel.rt.
ghost use Rattle.std.specs.Prelude.{◌≡◌, true, length};
ghost use Rattle.copy.specs.Samples.{pattern_at};
ghost use Rattle.samples.specs.Copy.{copied_said, layout_at, count_of, samples_at, filled};
ghost use Rattle.samples.specs.Given.{layout_given, count_given, samples_given};

use crate::{Uncopied, channel};
use num::Order;
use reader::{Cursor, Stepped};

// Copies the 32-bit patterns of one channel out of the ready data chunk at the cursor, I before Q, to the front of the
// slice, and answers how many they are. Refused, in this order, with 2, 3, 35, 34 and 33 (see `Uncopied`); then nothing
// is written. What lies behind the numbers stays as it was.
pub fn patterns_at(
    order: Order,
    s: &[u8],
    cursor: Cursor,
    channel: usize,
    out: &mut [u32],
) -> Result<usize, Uncopied>
    ensures said { copied_said result ≡ count_of true order s.now cursor channel (length out.old) }
    ensures left { out.new
        ≡ filled (count_of true order s.now cursor channel (length out.old))
        (layout_at true order s.now cursor channel)
        (pattern_at order (samples_at order s.now cursor)) out.old }
{
    channel::at(order, s, cursor, channel, out)
}

// The same out of the chunk that a step gave; the cursor that the step left has no say. Refused with 35 where that is
// no chunk said to be ready, where the stream has no complete chunk of its type and size at its place, where that chunk
// and the state shown do not make it ready with the same time and count of samples, or where it is not of this width;
// then with 34 and 33. It is never refused with 2 or 3.
pub fn patterns_of(
    order: Order,
    s: &[u8],
    stepped: Stepped,
    channel: usize,
    out: &mut [u32],
) -> Result<usize, Uncopied>
    ensures said { copied_said result
        ≡ count_given true order s.now stepped channel (length out.old) }
    ensures left { out.new
        ≡ filled (count_given true order s.now stepped channel (length out.old))
        (layout_given true order s.now stepped channel)
        (pattern_at order (samples_given s.now stepped)) out.old }
{
    channel::of(order, s, stepped, channel, out)
}
