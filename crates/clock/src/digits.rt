// Decimal digits.
ghost use Rattle.std.specs.Prelude.{◌≡◌, MatchOption};
ghost use Rattle.clock.specs.Start.{Between, number};

// Units and then tens, of which each may be any byte.
#[derive(Clone, Copy)]
pub(crate) struct TwoDigits(pub u8, pub u8);

impl TwoDigits {
    // The number that they show, if both are decimal and it is from `first` to `last`.
    pub(crate) fn between(self, first: u8, last: u8) -> Option<u8>
        ensures { MatchOption result (Between self first last → ⊥) (λ n. (n ≡ number self) × Between self first last) }
    {
        if self.0 > 9 || self.1 > 9 {
            return None;
        }
        let n = self.0 + 10 * self.1;
        if n < first || n > last {
            return None;
        }
        Some(n)
    }
}
