// The kinds with no value for the state: EOFH and IQDC, which are empty, and TEXT.
ghost use Rattle.std.specs.Prelude.{◌≡◌, ◌≤◌};
ghost use Rattle.body.specs.Fault.{read_said};
ghost use Rattle.body.specs.Plain.{empty, zeros, texts, text};

use crate::faults::Fault;
use num::{Number, Order};

// Checks an EOFH or IQDC body. Malformed: 11 unless it is empty.
pub fn empty(body: &[u8]) -> Result<(), Fault>
    ensures { read_said result ≡ empty body.now }
{
    if body.len() == 0 {
        Ok(())
    } else {
        Err(Fault::Size)
    }
}

fn zeros(s: &[u8]) -> bool
    ensures { result ≡ zeros s.now }
{
    s.iter().all(|&b| b == 0)
}

// A body with n bytes of text in it. The length stands beside the body, since it is not known yet to fit into it.
#[tactic(auto, unfolding(crate::specs::Plain::texts))]
fn texts(body: &[u8], n: usize) -> Result<usize, Fault>
    requires { n ≤ 2147483647 }
    ensures { read_said result ≡ texts body.now n }
{
    if body.len() != 4 + (n + 3) / 4 * 4 {
        return Err(Fault::Size);
    }
    let end = 4 + n;
    let zero = zeros(&body[end..]);
    let good = text::utf8(&body[4..end]);
    if !zero {
        return Err(Fault::Padding);
    }
    if !good {
        return Err(Fault::Text);
    }
    Ok(n)
}

// Reads a TEXT body, and gives the length of its text, which starts at place 4: a length, so many bytes of UTF-8, and
// zero bytes up to the next multiple of 4. Malformed: 11 a size or length that does not fit, 14 padding that is not
// zero, 15 a text that is not UTF-8.
#[tactic(auto, using(crate::proofs::Texts::by_length))]
pub fn text(order: Order, body: &[u8]) -> Result<usize, Fault>
    ensures { read_said result ≡ text order body.now }
{
    if body.len() < 4 {
        return Err(Fault::Size);
    }
    let n = u32::at(order, body, 0) as usize;
    if 0x7FFF_FFFF < n {
        return Err(Fault::Size);
    }
    texts(body, n)
}
