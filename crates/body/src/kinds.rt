// The kinds of chunks and their types.
ghost use Rattle.std.specs.Prelude.{◌≡◌};
ghost use Rattle.num.specs.Number.{bytes_of};
ghost use Rattle.body.specs.Kind.{code_of, kind_of};

use num::{Number, Order};

// The 22 kinds, by the letters of their types without the underscores, and every other type.
#[derive(Clone, Copy, PartialEq, Eq)]
pub enum Kind {
    SSNC,
    SSNR,
    SFNC,
    SFNR,
    GSNC,
    GFNC,
    SIQP,
    SR,
    BW,
    GCBW,
    BWOF,
    CF,
    DBFS,
    DBTG,
    FFS,
    GIQP,
    GCF,
    GRG,
    SOFH,
    EOFH,
    IQDC,
    TEXT,
    Unknown,
}

// The type of each kind: its four letters, the first the most significant byte.
pub const SSNC: u32 = 0x53534E43;

pub const SSNR: u32 = 0x53534E52;

pub const SFNC: u32 = 0x53464E43;

pub const SFNR: u32 = 0x53464E52;

pub const GSNC: u32 = 0x47534E43;

pub const GFNC: u32 = 0x47464E43;

pub const SIQP: u32 = 0x53495150;

pub const SR: u32 = 0x53525F5F;

pub const BW: u32 = 0x42575F5F;

pub const GCBW: u32 = 0x47434257;

pub const BWOF: u32 = 0x42574F46;

pub const CF: u32 = 0x43465F5F;

pub const DBFS: u32 = 0x64424653;

pub const DBTG: u32 = 0x64425447;

pub const FFS: u32 = 0x4646535F;

pub const GIQP: u32 = 0x47495150;

pub const GCF: u32 = 0x4743465F;

pub const GRG: u32 = 0x4752475F;

pub const SOFH: u32 = 0x534F4648;

pub const EOFH: u32 = 0x454F4648;

pub const IQDC: u32 = 0x49514443;

pub const TEXT: u32 = 0x54455854;

// The kind of a type; Unknown where no kind has it. Nearly every chunk is data, so the six data codes are compared
// first: those of groups are below SFNC, those of single channels are not.
#[tactic(auto, unfolding(crate::specs::Kind::kind_of, crate::specs::Kind::kind_in, crate::specs::Kind::known))]
pub fn kind_of(code: u32) -> Kind
    ensures { result ≡ kind_of code }
{
    if code < SFNC {
        match code {
            GSNC => Kind::GSNC,
            GFNC => Kind::GFNC,
            _ => any_kind_of(code),
        }
    } else {
        match code {
            SSNC => Kind::SSNC,
            SSNR => Kind::SSNR,
            SFNC => Kind::SFNC,
            SFNR => Kind::SFNR,
            _ => any_kind_of(code),
        }
    }
}

// The kind of a type, by the whole table. The data types stand here too, though `kind_of` has passed them: with all 22
// types, and called from two places, this function is too long to be inlined. A compiler that inlined it would make one
// search tree of these comparisons and of those with the data codes. It is a match, since no `as` makes a kind of a
// number.
#[tactic(auto, unfolding(crate::specs::Kind::kind_of, crate::specs::Kind::kind_in, crate::specs::Kind::known))]
fn any_kind_of(code: u32) -> Kind
    ensures { result ≡ kind_of code }
{
    match code {
        SSNC => Kind::SSNC,
        SSNR => Kind::SSNR,
        SFNC => Kind::SFNC,
        SFNR => Kind::SFNR,
        GSNC => Kind::GSNC,
        GFNC => Kind::GFNC,
        SIQP => Kind::SIQP,
        SR => Kind::SR,
        BW => Kind::BW,
        GCBW => Kind::GCBW,
        BWOF => Kind::BWOF,
        CF => Kind::CF,
        DBFS => Kind::DBFS,
        DBTG => Kind::DBTG,
        FFS => Kind::FFS,
        GIQP => Kind::GIQP,
        GCF => Kind::GCF,
        GRG => Kind::GRG,
        SOFH => Kind::SOFH,
        EOFH => Kind::EOFH,
        IQDC => Kind::IQDC,
        TEXT => Kind::TEXT,
        _ => Kind::Unknown,
    }
}

// The type of a kind; 0 for Unknown, which has none (docs/CALLS.md). This and `kind_of` are no `From`: a conversion
// would not say which number of a kind is meant, nor that several types are Unknown and Unknown has none.
// The types are no discriminants of `Kind`: its tags would be spread over 32 bits, and each match on a kind a search.
pub fn code_of(kind: Kind) -> u32
    ensures { result ≡ code_of kind }
{
    match kind {
        Kind::SSNC => SSNC,
        Kind::SSNR => SSNR,
        Kind::SFNC => SFNC,
        Kind::SFNR => SFNR,
        Kind::GSNC => GSNC,
        Kind::GFNC => GFNC,
        Kind::SIQP => SIQP,
        Kind::SR => SR,
        Kind::BW => BW,
        Kind::GCBW => GCBW,
        Kind::BWOF => BWOF,
        Kind::CF => CF,
        Kind::DBFS => DBFS,
        Kind::DBTG => DBTG,
        Kind::FFS => FFS,
        Kind::GIQP => GIQP,
        Kind::GCF => GCF,
        Kind::GRG => GRG,
        Kind::SOFH => SOFH,
        Kind::EOFH => EOFH,
        Kind::IQDC => IQDC,
        Kind::TEXT => TEXT,
        Kind::Unknown => 0,
    }
}

// The four letters of a type, known or not: its bytes, the most significant first.
pub fn letters_of(code: u32) -> [u8; 4]
    ensures { result ≡ bytes_of Order.Big 4 code }
{
    code.bytes(Order::Big)
}
