// Numbers of 2, 4 and 8 bytes, unsigned and signed, out of bytes and into bytes, in either byte order.
#![tactic(auto)]

ghost use Rattle.std.specs.Prelude.{◌≡◌};
ghost use Rattle.std.specs.Int.{w16, w32, w64};
ghost use Rattle.std.proofs.Common.{to_z, of_z};

mod number;
mod numbered;

pub use number::Number;
pub use numbered::Numbered;

// The byte order of a stream: most significant byte first, or last.
#[derive(Clone, Copy, PartialEq, Eq)]
pub enum Order {
    Big,
    Little,
}

// The signed number that a pattern stands for, in two's complement. The six functions hand on to the kit's casts, and
// have names of their own because a theorem can name a promise of this library, and none of a cast.
pub fn signed16(x: u16) -> i16
    ensures { result ≡ to_z w16 x }
{
    u16::cast_signed(x)
}

pub fn signed32(x: u32) -> i32
    ensures { result ≡ to_z w32 x }
{
    u32::cast_signed(x)
}

pub fn signed64(x: u64) -> i64
    ensures { result ≡ to_z w64 x }
{
    u64::cast_signed(x)
}

// The pattern of a signed number.
pub fn pattern16(x: i16) -> u16
    ensures { result ≡ of_z w16 x }
{
    i16::cast_unsigned(x)
}

pub fn pattern32(x: i32) -> u32
    ensures { result ≡ of_z w32 x }
{
    i32::cast_unsigned(x)
}

pub fn pattern64(x: i64) -> u64
    ensures { result ≡ of_z w64 x }
{
    i64::cast_unsigned(x)
}
