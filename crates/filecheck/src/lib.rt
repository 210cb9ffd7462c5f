// The check of a file: a header at its start, ended before any data, and whole chunks to the end.
#![tactic(auto)]

ghost use Rattle.std.specs.Prelude.{◌≡◌, ◌<◌, ◌≤◌, length};
ghost use Rattle.body.specs.Verdict.{verdict};
ghost use Rattle.filecheck.specs.File.{file_said, bad_number, part_of, is_good, file_ahead, file_of};
ghost use Rattle.filecheck.specs.Inner.Turn.{turn_said, forward, Turned};

use body::Kind;
use frame::Ahead;
use num::{Numbered, Order};

// Why a file is not good.
#[derive(Clone, Copy, PartialEq, Eq)]
pub enum BadFile {
    // The file does not begin with a well-formed SOFH: number 41.
    NoHeader,
    // Data, or the end of the file, stands at this place before a well-formed EOFH: number 42.
    HeaderNotEnded(usize),
    // A second SOFH stands at this place: number 43.
    SecondHeader(usize),
    // A skipped or unfinished item stands at this place: number 44.
    NotAChunk(usize),
}

// The number of the refusal: 41 to 44. A match, since a case has its place with it, and so is no number by `as`.
impl Numbered for BadFile {
    ghost number_of = { bad_number };

    fn number(self) -> u32 {
        match self {
            BadFile::NoHeader => 41,
            BadFile::HeaderNotEnded(_) => 42,
            BadFile::SecondHeader(_) => 43,
            BadFile::NotAChunk(_) => 44,
        }
    }
}

// The part that a chunk has in a file. SOFH is a header, EOFH a header's end.
#[derive(Clone, Copy)]
enum Part {
    Data,
    Header,
    HeaderEnd,
    Other,
}

// How far a file is good: up to a place between two items, and whether the header was ended before it.
#[derive(Clone, Copy)]
struct Reach {
    place: usize,
    ended: bool,
}

// The part of a kind. No `From`: a conversion would not say that this is a rule of files (specs/File.antt `part_of`).
#[tactic(auto, unfolding(crate::specs::File::part_of, body::specs::Table::shaped))]
fn part_of(kind: Kind) -> Part
    ensures { result ≡ part_of kind }
{
    match kind {
        Kind::SSNC | Kind::SSNR | Kind::SFNC | Kind::SFNR | Kind::GSNC | Kind::GFNC => Part::Data,
        Kind::SOFH => Part::Header,
        Kind::EOFH => Part::HeaderEnd,
        _ => Part::Other,
    }
}

// Whether a body of a kind is well-formed.
fn well_formed(order: Order, kind: Kind, body: &[u8]) -> bool
    ensures { result ≡ is_good (verdict order kind body.now) }
{
    body::check(order, kind, body).is_ok()
}

// The first item: the file has to begin with a well-formed SOFH.
fn begin(order: Order, s: &[u8]) -> Result<Reach, BadFile>
    ensures { (turn_said order s.now 0 result ≡ file_of order s.now)
        × forward 0 (length s.now) result }
{
    let Ahead::Chunk { code, size } = frame::ahead_of(order, s, 0) else {
        return Err(BadFile::NoHeader);
    };
    let from = frame::HEADER;
    let to = from + size;
    let kind = body::kind_of(code);
    let Part::Header = part_of(kind) else {
        return Err(BadFile::NoHeader);
    };
    if well_formed(order, kind, &s[from..to]) {
        Ok(Reach {
            place: to,
            ended: false,
        })
    } else {
        Err(BadFile::NoHeader)
    }
}

// An item after the first.
#[tactic(auto, using(crate::proofs::Turns::ends))]
fn next(order: Order, s: &[u8], was: Reach) -> Result<Reach, BadFile>
    requires { was.place < length s.now }
    ensures { Turned order s.now was.place was.ended result }
{
    let Reach { place, ended } = was;
    let Ahead::Chunk { code, size } = frame::ahead_of(order, s, place) else {
        return Err(BadFile::NotAChunk(place));
    };
    let from = place + frame::HEADER;
    let to = from + size;
    let kind = body::kind_of(code);
    match part_of(kind) {
        Part::Data if !ended => Err(BadFile::HeaderNotEnded(place)),
        Part::Header => Err(BadFile::SecondHeader(place)),
        Part::HeaderEnd => Ok(Reach {
            place: to,
            ended: ended | well_formed(order, kind, &s[from..to]),
        }),
        Part::Data | Part::Other => Ok(Reach { place: to, ended }),
    }
}

// The items after the first, from the reach of the first on: how many items the file has.
fn rest(order: Order, s: &[u8], first: Reach) -> Result<usize, BadFile>
    requires { (0 < first.place) × (first.place ≤ length s.now) }
    ensures { file_said result ≡ file_ahead order s.now 1 first.place first.ended }
{
    let mut reach = first;
    let mut items = 1;
    // No range says where the items begin: each ends where the next begins.
    while reach.place < s.len() {
        reach = next(order, s, reach)?;
        items += 1;
    }
    if reach.ended {
        Ok(items)
    } else {
        Err(BadFile::HeaderNotEnded(reach.place))
    }
}

// Checks a whole file, whose order is given: a well-formed SOFH at its start, a well-formed EOFH before any data, no
// second SOFH, and whole chunks to the end. The answer is the number of its items. Refused: NoHeader 41 first; then
// what comes first in the file of HeaderNotEnded 42, SecondHeader 43 and NotAChunk 44, each with its place.
pub fn check(order: Order, s: &[u8]) -> Result<usize, BadFile>
    ensures { file_said result ≡ file_of order s.now }
{
    let first = begin(order, s)?;
    rest(order, s, first)
}
