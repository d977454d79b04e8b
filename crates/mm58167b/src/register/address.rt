// Registers by their addresses.
ghost use Rattle.std.specs.Prelude.{MatchResult};

use crate::register::{Place, Register};
use chips::refusal::Refusal;

impl TryFrom<u64> for Register {
    type Error = Refusal;

    ghost use Rattle.chips.specs.Questions.{FirstNo};
    ghost use Rattle.mm58167b.specs.Address.{Is};
    ghost use Rattle.mm58167b.specs.Registers.{read_questions};

    ghost try_from_gives = { λ address r. MatchResult r (λ register. Is register address) (λ refusal. FirstNo (read_questions address) refusal) };

    fn try_from(address: u64) -> Result<Register, Refusal> {
        match address {
            0..=7 => Ok(Register::Counter(Place {
                index: address as usize,
            })),
            8..=15 => Ok(Register::Ram(Place {
                index: address as usize - 8,
            })),
            20 => Ok(Register::Status),
            _ => Err(Refusal::NoAddress),
        }
    }
}
