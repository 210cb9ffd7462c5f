// Numbers in hexadecimal digits.
// By hand: itoa writes decimal digits alone, and std's `UpperHex` may fail to write, by its contract.
ghost use Rattle.std.specs.Prelude.{◌≡◌, ◌<◌};
ghost use Rattle.listing.specs.Digits.{hex_digit, hex_digits};

// The byte of a hexadecimal digit.
fn hex_digit(d: u32) -> u8
    requires { d < 16 }
    ensures { result ≡ hex_digit d }
{
    if d < 10 {
        b'0' + d as u8
    } else {
        b'A' + (d as u8 - 10)
    }
}

// The N lowest hexadecimal digits, written from the last place down.
#[tactic(auto, using(crate::proofs::Numbers::hex_places), unfolding(crate::specs::Digits::hex_digits))]
pub(crate) fn hex<const N: usize>(n: u32) -> [u8; N]
    ensures { result ≡ hex_digits N n }
{
    let mut digits = [0; N];
    let mut rest = n;
    for i in (0..N).rev() {
        digits[i] = hex_digit(rest % 16);
        rest /= 16;
    }
    digits
}
