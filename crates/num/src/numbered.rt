// The numbers of refusals.
ghost use Rattle.std.specs.Prelude.{◌≡◌, ℕ};
ghost use Rattle.num.specs.Answer.{answered, refusal};

// An answer, or a part of one, that has a number in the table of refusals.
// A trait, and no `From` for u32: a conversion would not say that it gives the number of a refusal.
pub trait Numbered {
    ghost number_of: { Self → ℕ };

    // The number of the refusal; 0 where nothing is refused.
    fn number(self) -> u32
        ensures { result ≡ number_of self };
}

// A result has the number of its error. `self.err().map_or(0, E::number)` would be no plainer than the two arms.
impl<T: Copy, E: Numbered> Numbered for Result<T, E> {
    ghost number_of = { λ r. refusal (answered E.number_of r) };

    fn number(self) -> u32 {
        match self {
            Ok(_) => 0,
            Err(e) => e.number(),
        }
    }
}
