// Reading into a lent slice.
#![tactic(auto)]

ghost use Rattle.std.specs.Prelude.{◌≤◌, ◌<◌, length, take, IfOk};
ghost use Rattle.std.specs.Io.KnownBytes.{Consumes, IsAtEnd};

use std::io;
use std::io::Read;

// Reads until out is full or the input ends, and answers how many bytes came. They are the next ones of the input, they
// stand at the front of out, and where out is not full the input has no more. The input's first error is answered as it
// is.
pub fn filled<R: Read>(input: &mut R, out: &mut [u8]) -> io::Result<usize>
    ensures within { IfOk result (λ n. n ≤ length out.new) }
    ensures came { IfOk result (λ n. Consumes (R.remaining input.old) (R.remaining input.new) (take n out.new)) }
    ensures ended { IfOk result (λ n. n < length out.new → IsAtEnd (R.remaining input.new)) }
{
    // `read_exact` does not say how many bytes came where the input ends early.
    let mut done = 0;
    while done < out.len() {
        let more = input.read(&mut out[done..])?;
        if more == 0 {
            break;
        }
        done += more;
    }
    Ok(done)
}
