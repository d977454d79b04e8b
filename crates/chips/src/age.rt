// How long a chip has been waited for.
ghost use Rattle.std.specs.Prelude.{◌≡◌, ◌+◌, ◌^◌, ◌≤◌, MatchResult};
ghost use Rattle.chips.specs.declared.refusal.Refusal.TheVariants.{TooOld};

use crate::chip::OLDEST;
use crate::refusal::Refusal;

// The cycles waited since a chip was made.
#[derive(Clone, Copy)]
pub struct Age {
    pub cycles: u64,
    ghost young: { cycles ≤ 2 ^ 60 },
}

impl Age {
    // This age and so many cycles more, as far as a chip may come.
    pub fn grown(self, cycles: u64) -> Result<Age, Refusal>
        ensures { MatchResult result (λ a. a.cycles ≡ self.cycles + cycles) (λ e. (e ≡ TooOld) × (self.cycles + cycles ≤ 2 ^ 60 → ⊥)) }
    {
        if cycles > OLDEST - self.cycles {
            return Err(Refusal::TooOld);
        }
        Ok(Age {
            cycles: self.cycles + cycles,
        })
    }
}
