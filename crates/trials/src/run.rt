// Records written one after the other into a slice, one or more for each chunk of a stream.
use crate::digest::Digest;
use num::{Numbered, Order};
use reader::{Cursor, Item};
use writer::Unwritten;

// Where the next record goes, and the digest so far.
#[derive(Clone, Copy)]
pub(crate) struct Run {
    pub(crate) place: usize,
    pub(crate) digest: Digest,
}

impl Run {
    // What a call answered: the next record goes where it says, or stays.
    pub(crate) fn told(self, written: Result<usize, Unwritten>) -> Self {
        match written {
            Ok(place) => Run {
                place,
                digest: self.digest.with(place as u64),
            },
            Err(why) => Run {
                digest: self.digest.refused(number(why)),
                ..self
            },
        }
    }
}

// The number of a refusal. It does not come from the library, so that a wrong one there shows.
fn number(why: Unwritten) -> u64 {
    match why {
        Unwritten::PastEnd => 2,
        Unwritten::BadSize => 32,
        Unwritten::Malformed(fault) => u64::from(fault.number()),
        Unwritten::NoRoom => 31,
    }
}

// The digest of what is answered for each chunk's type and body, and of the slice at the end.
pub(crate) fn stream<F: Fn(u32, &[u8], &mut [u8], Run) -> Run>(
    from: Order,
    s: &[u8],
    out: &mut [u8],
    each: F,
) -> Digest
    requires { F.IsAlwaysCallable each }
{
    let mut cursor = Cursor::new();
    let mut run = Run {
        place: 0,
        digest: Digest::new(),
    };
    for _ in 0..reader::count(from, s) {
        let stepped = cursor.step(from, s);
        if let Item::Chunk { code, .. } = stepped.item {
            run = each(code, reader::body_of(s, stepped.item), out, run);
        }
        cursor = stepped.cursor;
    }
    out.iter()
        .fold(run.digest, |sum, x| sum.with(u64::from(*x)))
}
