// What is wrong with a body.
ghost use Rattle.std.specs.Prelude.{◌≡◌};
ghost use Rattle.body.specs.Fault.{fault_number};

use num::Numbered;

// What is wrong with a body, each with its number.
#[derive(Clone, Copy, PartialEq, Eq)]
pub enum Fault {
    // The size is not that of the kind, or a text's length does not fit.
    Size = 11,
    // A value that the kind does not allow.
    Value = 12,
    // A count of channels that is not 1 to 16.
    Count = 13,
    // Padding that is not zero.
    Padding = 14,
    // A text that is not UTF-8.
    Text = 15,
}

// The number of the fault, 11 to 15. No `From` for u32: verdicts, items and results have numbers by the same trait.
impl Numbered for Fault {
    ghost number_of = { fault_number };

    fn number(self) -> u32 {
        self as u32
    }
}
