// The group kinds, each written from a count of channels and their values. A count above 16 stands as 17, which its row
// refuses, and sixteen values follow.
ghost use Rattle.std.specs.Prelude.{◌≡◌, ◌++◌, ◌+◌, ◌*◌, ◌≤◌, length};
ghost use Rattle.num.specs.Number.{bytes_of};
ghost use Rattle.lay.specs.Numbers.{numbers_of};
ghost use Rattle.lay.specs.Runs.{run_of};
ghost use Rattle.body.specs.Kind.{code_of};
ghost use Rattle.body.specs.declared.kinds.Kind.TheVariants as K;
ghost use Rattle.writer.specs.Write.{write_of, written_out, written_said};
ghost use Rattle.typed.specs.Groups.{packing_body, hertz_body, gains_body};

use body::{GroupGains, GroupHertz, GroupPacking};
use num::{Number, Order};
use writer::Unwritten;

// The most bytes of a group: a count, and sixteen numbers of 64 bits.
const LARGEST: usize = 132;

// A record of some words and then values.
fn group<const N: usize, T: Number<N>>(
    order: Order,
    code: u32,
    head: &[u32],
    values: &[T],
    out: &mut [u8],
    place: usize,
) -> Result<usize, Unwritten>
    requires { length head.now * 4 + length values.now * N ≤ 132 }
    ensures said { written_said result
        ≡ write_of order code (run_of (bytes_of order 4) head.now ++ numbers_of order N T.bits values.now)
        (length out.old) place }
    ensures left { out.new
        ≡ written_out order code (run_of (bytes_of order 4) head.now ++ numbers_of order N T.bits values.now)
        out.old place }
{
    let at = head.len() * 4;
    let end = at + values.len() * N;
    let mut body = [0u8; LARGEST];
    lay::run(order, head, &mut body, 0);
    lay::run(order, values, &mut body, at);
    writer::write(order, code, &body[..end], out, place)
}

// Writes a GIQP record: how the pairs of group chunks are packed. Refused as `writer::write` is: n that is not 1 to 16
// with 13; an increment other than 1 or n, or an offset of 2^31 or more, with 12.
pub fn giqp(
    order: Order,
    packing: GroupPacking,
    out: &mut [u8],
    place: usize,
) -> Result<usize, Unwritten>
    ensures said { written_said result
        ≡ write_of order (code_of K.GIQP) (packing_body order packing) (length out.old) place }
    ensures left { out.new
        ≡ written_out order (code_of K.GIQP) (packing_body order packing) out.old place }
{
    let head = [
        packing.n.min(17) as u32,
        u32::from(packing.iq),
        packing.increment,
    ];
    let offsets = &packing.offsets[..packing.n.min(16)];
    group(order, body::kinds::GIQP, &head, offsets, out, place)
}

// Writes a GCF_ record: the centre frequency of each channel, in µHz. Refused as `writer::write` is: n that is not 1 to
// 16 with 13.
pub fn gcf(
    order: Order,
    hertz: GroupHertz,
    out: &mut [u8],
    place: usize,
) -> Result<usize, Unwritten>
    ensures said { written_said result
        ≡ write_of order (code_of K.GCF) (hertz_body order hertz) (length out.old) place }
    ensures left { out.new
        ≡ written_out order (code_of K.GCF) (hertz_body order hertz) out.old place }
{
    let head = [hertz.n.min(17) as u32];
    let values = &hertz.values[..hertz.n.min(16)];
    group(order, body::kinds::GCF, &head, values, out, place)
}

// Writes a GRG_ record: the gain of each channel, in dB. Refused as `writer::write` is: n that is not 1 to 16 with 13,
// a gain that is not finite with 12.
pub fn grg(
    order: Order,
    gains: GroupGains,
    out: &mut [u8],
    place: usize,
) -> Result<usize, Unwritten>
    ensures said { written_said result
        ≡ write_of order (code_of K.GRG) (gains_body order gains) (length out.old) place }
    ensures left { out.new
        ≡ written_out order (code_of K.GRG) (gains_body order gains) out.old place }
{
    let head = [gains.n.min(17) as u32];
    let patterns = gains.values.map(|x| body::pattern(x));
    let values = &patterns[..gains.n.min(16)];
    group(order, body::kinds::GRG, &head, values, out, place)
}
