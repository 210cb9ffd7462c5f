// The numbers of a channel, of either type, copied by a plan.
// The parameters go one by one, as the public calls have them (docs/CALLS.md): a struct of them would be made in each.
ghost use Rattle.std.specs.Prelude.{◌≡◌, true, length};
ghost use Rattle.num.specs.Answer.{gives};
ghost use Rattle.samples.specs.Inner.Plan.{lies, Sound, planned_count, planned_left};
ghost use Rattle.samples.specs.Copy.{copied_said, layout_at, count_within, count_of, samples_at, filled};
ghost use Rattle.samples.specs.Given.{layout_given, count_given, samples_given};

use crate::{Layout, Plan, Uncopied, given};
use copy::{Pairs, Sample};
use num::Order;
use reader::{Cursor, Stepped};

// The layout lies inside src. Where src stands in the stream, `at`, has a say in the speed alone.
fn fill_from<T: Sample>(
    order: Order,
    at: usize,
    src: &[u8],
    l: Layout,
    out: &mut [T],
) -> Result<usize, Uncopied>
    requires { lies T.size (length src.now) l ≡ true }
    ensures said { copied_said result ≡ count_within (length out.old) l }
    ensures left { out.new
        ≡ filled (count_within (length out.old) l) (gives l) (T.number_at order src.now)
        out.old }
{
    let count = l.count;
    if l.pairs {
        let pairs = Pairs {
            iq: l.iq,
            first: l.first,
            step: l.step,
            count,
        };
        if T::pairs(order, pairs, at, src, out) {
            return Ok(2 * count);
        }
        return Err(Uncopied::TooShort);
    }
    if T::reals(order, at, src, count, out) {
        return Ok(count);
    }
    Err(Uncopied::TooShort)
}

// What a plan comes to: the numbers copied, or its refusal.
fn fill<T: Sample>(
    order: Order,
    s: &[u8],
    planned: Result<Plan, Uncopied>,
    out: &mut [T],
) -> Result<usize, Uncopied>
    requires { Sound T.size s.now planned }
    ensures said { copied_said result ≡ planned_count (length out.old) planned }
    ensures left { out.new ≡ planned_left (T.number_at order) s.now planned out.old }
{
    let plan = planned?;
    let from = plan.from;
    let to = plan.to;
    fill_from(order, from, &s[from..to], plan.layout, out)
}

// Copies the numbers of one channel out of the ready data chunk at the cursor.
pub(crate) fn at<T: Sample>(
    order: Order,
    s: &[u8],
    cursor: Cursor,
    channel: usize,
    out: &mut [T],
) -> Result<usize, Uncopied>
    ensures said { copied_said result ≡ count_of T.FLOAT order s.now cursor channel (length out.old) }
    ensures left { out.new
        ≡ filled (count_of T.FLOAT order s.now cursor channel (length out.old))
        (layout_at T.FLOAT order s.now cursor channel)
        (T.number_at order (samples_at order s.now cursor)) out.old }
{
    let planned = crate::plan_at(order, s, cursor, channel, T::FLOAT);
    fill(order, s, planned, out)
}

// The same out of the chunk that a step gave.
pub(crate) fn of<T: Sample>(
    order: Order,
    s: &[u8],
    stepped: Stepped,
    channel: usize,
    out: &mut [T],
) -> Result<usize, Uncopied>
    ensures said { copied_said result
        ≡ count_given T.FLOAT order s.now stepped channel (length out.old) }
    ensures left { out.new
        ≡ filled (count_given T.FLOAT order s.now stepped channel (length out.old))
        (layout_given T.FLOAT order s.now stepped channel)
        (T.number_at order (samples_given s.now stepped)) out.old }
{
    let planned = given::plan_of(order, s, stepped, channel, T::FLOAT);
    fill(order, s, planned, out)
}
