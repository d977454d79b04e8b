// Four bits, as wide as the bus.
ghost use Rattle.std.specs.Prelude.{◌≤◌};

use chips::refusal::Refusal;

#[derive(Clone, Copy)]
pub(crate) struct Nibble {
    pub value: u8,
    ghost four_bits: { value ≤ 15 },
}

impl TryFrom<u64> for Nibble {
    type Error = Refusal;

    ghost use Rattle.std.specs.Prelude.{◌≡◌, ◌≤◌, MatchResult};
    ghost use Rattle.chips.specs.declared.refusal.Refusal.TheVariants.{TooWide};

    ghost try_from_gives = { λ value r. MatchResult r (λ nibble. (nibble.value ≡ value) × (value ≤ 15)) (λ refusal. (refusal ≡ TooWide) × (value ≤ 15 → ⊥)) };

    fn try_from(value: u64) -> Result<Nibble, Refusal> {
        match value {
            0..=15 => Ok(Nibble { value: value as u8 }),
            _ => Err(Refusal::TooWide),
        }
    }
}
