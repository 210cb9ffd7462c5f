// The well-formed chunks of a stream written anew, each by the call for its kind and from its values, into a slice of
// 2048 bytes. Bodies of more than 1032 bytes are left out.
use crate::run::{Run, stream};
use body::Kind;
use copy::Sample;
use num::{Number, Order};
use std::io;
use writer::Unwritten;

pub(crate) fn both(rt: &impl Print, s: &[u8]) -> io::Result<()> {
    crate::digest::written(
        rt,
        "values",
        |from, to| stream(from, s, &mut [0xAA; 2048], |code, bytes, out, run| {
            let kind = body::kind_of(code);
            let chunk = Chunk {
                from,
                to,
                kind,
                bytes,
            };
            chunk.tried(out, run)
        }),
    )
}

// A chunk's body of this kind, and the orders in which it is read and written.
#[derive(Clone, Copy)]
struct Chunk<'a> {
    from: Order,
    to: Order,
    kind: Kind,
    bytes: &'a [u8],
}

impl Chunk<'_> {
    // Written, where it is well-formed and of a known kind.
    fn tried(self, out: &mut [u8], run: Run) -> Run {
        if self.kind == Kind::Unknown
            || 1032 < self.bytes.len()
            || body::check(self.from, self.kind, self.bytes).is_err()
        {
            return run;
        }
        run.told(self.written(out, run.place))
    }

    // Read and written by the calls for its kind, each of which is tried.
    fn written(self, out: &mut [u8], place: usize) -> Result<usize, Unwritten> {
        let Chunk {
            from,
            to,
            kind,
            bytes,
        } = self;
        let short = i32::at(from, bytes, 0);
        let long = i64::at(from, bytes, 0);
        // A match and no table of functions: the calls take values of different types.
        match kind {
            Kind::SIQP => typed::siqp(to, short, out, place),
            Kind::SOFH => typed::sofh(to, short, out, place),
            Kind::SR => typed::sr(to, long, out, place),
            Kind::BW => typed::bw(to, long, out, place),
            Kind::GCBW => typed::gcbw(to, long, out, place),
            Kind::CF => typed::cf(to, long, out, place),
            Kind::BWOF => typed::bwof(to, long, i64::at(from, bytes, 8), out, place),
            Kind::EOFH => typed::eofh(to, out, place),
            Kind::IQDC => typed::iqdc(to, out, place),
            Kind::TEXT => typed::text(to, part(bytes, 4, body::text(from, bytes)?), out, place),
            Kind::DBFS => typed::level(to, body::dbfs(from, bytes)?, out, place),
            Kind::DBTG => typed::level(to, body::dbtg(from, bytes)?, out, place),
            Kind::FFS => typed::level(to, body::ffs(from, bytes)?, out, place),
            Kind::GIQP => typed::giqp(to, body::giqp(from, bytes)?, out, place),
            Kind::GCF => typed::gcf(to, body::gcf(from, bytes)?, out, place),
            Kind::GRG => typed::grg(to, body::grg(from, bytes)?, out, place),
            _ => self.samples(out, place),
        }
    }

    // The samples behind the time as 16-bit numbers and as patterns, of which the kind takes one.
    fn samples(self, out: &mut [u8], place: usize) -> Result<usize, Unwritten> {
        let Chunk {
            from,
            to,
            kind,
            bytes,
        } = self;
        let mut numbers = [0i16; 512];
        let mut patterns = [0u32; 256];
        let time = i64::at(from, bytes, 0);
        let samples = bytes.get(8..).unwrap_or(&[]);
        let n = samples.len() / 2;
        let m = samples.len() / 4;
        if 512 < n {
            return Err(Unwritten::BadSize);
        }
        i16::reals(from, 0, samples, n, &mut numbers);
        u32::reals(from, 0, samples, m, &mut patterns);
        // A match and no table: three calls take 16-bit numbers and three take patterns.
        match kind {
            Kind::SSNC => writer::ssnc(to, time, &numbers[..n], out, place),
            Kind::SSNR => writer::ssnr(to, time, &numbers[..n], out, place),
            Kind::GSNC => writer::gsnc(to, time, &numbers[..n], out, place),
            Kind::SFNC => writer::sfnc(to, time, &patterns[..m], out, place),
            Kind::SFNR => writer::sfnr(to, time, &patterns[..m], out, place),
            _ => writer::gfnc(to, time, &patterns[..m], out, place),
        }
    }
}

// So many bytes from a place on; none where they are not there.
// n stands beside the bytes, since body::text answers a length (docs/CALLS.md) and no slice.
fn part(bytes: &[u8], from: usize, n: usize) -> &[u8] {
    bytes
        .get(from..)
        .and_then(|rest| rest.get(..n))
        .unwrap_or(&[])
}
