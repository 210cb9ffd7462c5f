// The verdict on a body, by its kind.
ghost use Rattle.std.specs.Prelude.{◌≡◌};
ghost use Rattle.body.specs.Fault.{read_said};
ghost use Rattle.body.specs.Verdict.{seen, verdict};

use crate::faults::Fault;
use crate::kinds::Kind;
use crate::{groups, levels, numbers, plain, sampled};
use num::Order;

// A reading with its value left out.
fn seen<T: Copy>(read: Result<T, Fault>) -> Result<(), Fault>
    ensures { read_said result ≡ seen (read_said read) }
{
    read.map(|_| ())
}

// Whether a body of a kind is well-formed, or with which of 11 to 15 it is refused. A body of an unknown kind always
// is.
// A match and no table of functions: the readings of the kinds give values of different types.
#[tactic(auto, unfolding(crate::specs::Verdict::verdict))]
pub fn check(order: Order, kind: Kind, body: &[u8]) -> Result<(), Fault>
    ensures { read_said result ≡ verdict order kind body.now }
{
    match kind {
        Kind::SSNC => seen(sampled::ssnc(order, body)),
        Kind::SSNR => seen(sampled::ssnr(order, body)),
        Kind::SFNC => seen(sampled::sfnc(order, body)),
        Kind::SFNR => seen(sampled::sfnr(order, body)),
        Kind::GSNC => seen(sampled::gsnc(order, body)),
        Kind::GFNC => seen(sampled::gfnc(order, body)),
        Kind::SIQP => seen(numbers::siqp(order, body)),
        Kind::SR => seen(numbers::sr(order, body)),
        Kind::BW | Kind::GCBW => seen(numbers::bw(order, body)),
        Kind::BWOF => seen(numbers::bwof(order, body)),
        Kind::CF => seen(numbers::cf(order, body)),
        Kind::DBFS => seen(levels::dbfs(order, body)),
        Kind::DBTG => seen(levels::dbtg(order, body)),
        Kind::FFS => seen(levels::ffs(order, body)),
        Kind::GIQP => seen(groups::giqp(order, body)),
        Kind::GCF => seen(groups::gcf(order, body)),
        Kind::GRG => seen(groups::grg(order, body)),
        Kind::SOFH => seen(numbers::sofh(order, body)),
        Kind::EOFH | Kind::IQDC => plain::empty(body),
        Kind::TEXT => seen(plain::text(order, body)),
        Kind::Unknown => Ok(()),
    }
}
