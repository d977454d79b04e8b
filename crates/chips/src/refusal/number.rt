// Refusals by number.
ghost use Rattle.std.specs.Prelude.{◌≡◌};

use crate::refusal::Refusal;

impl From<Refusal> for u8 {
    ghost use Rattle.chips.specs.Refusals.{number};

    ghost from_gives = { λ refusal n. n ≡ number refusal };

    fn from(refusal: Refusal) -> u8 {
        match refusal {
            Refusal::NoAddress => 2,
            Refusal::NotWritable => 3,
            Refusal::TooWide => 4,
            Refusal::TooOld => 5,
            Refusal::TestBit => 6,
            Refusal::Unlawful => 7,
            Refusal::NoColumn => 8,
        }
    }
}
