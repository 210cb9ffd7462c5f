// Bytes laid over a lent slice from a place on. Where they do not fit, nothing is written.
// The place stands beside the slice, which is not cut there by the caller: one past the end is refused as well.
#![tactic(auto)]

pub mod runs;

ghost use Rattle.std.specs.Prelude.{◌≡◌, ◌+◌, ◌*◌, ◌≤◌, leb, length};
ghost use Rattle.lay.specs.Splice.{fits, overlaid};

pub use runs::run;

// All of src over all of out, which is as long, the first few bytes by themselves. By index, and not by the library's
// copy: the compiler makes vectors of the loops, and an archive for C asks for no copy of the C library's.
fn fill(src: &[u8], few: usize, out: &mut [u8])
    requires { (length src.now ≡ length out.old) × (few ≤ length src.now) }
    ensures { out.new ≡ src.now }
{
    for j in 0..few {
        out[j] = src[j];
    }
    for j in few..src.len() {
        out[j] = src[j];
    }
}

// How many of so many bytes come before the first that lies at a multiple of 16, from a place on. A long run of bytes
// is copied faster from there: out is taken to lie at such an address itself. For a short run it does not pay.
fn lead(at: usize, count: usize) -> usize
    ensures { result ≤ count }
{
    if count < 256 { 0 } else { (16 - at % 16) % 16 }
}

// Whether `count` values of `stride` bytes fit into `whole` bytes from the place `at` on. Nothing is multiplied, so
// that no test overflows.
fn room(whole: usize, at: usize, stride: usize, count: usize) -> bool
    requires { 1 ≤ stride }
    ensures { result ≡ leb (at + count * stride) whole }
{
    at <= whole && count <= (whole - at) / stride
}

// Copies all of src into out, from the place `at` on, and answers true. Where it does not fit the answer is false, and
// out is as it was. What lies before and behind keeps its bytes.
pub fn bytes(src: &[u8], out: &mut [u8], at: usize) -> bool
    ensures said { result ≡ fits out.old at src.now }
    ensures left { out.new ≡ overlaid out.old at src.now }
{
    if !room(out.len(), at, 1, src.len()) {
        return false;
    }
    let end = at + src.len();
    fill(src, lead(at, src.len()), &mut out[at..end]);
    true
}
