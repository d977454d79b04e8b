// Registers by their addresses.
ghost use Rattle.std.specs.Prelude.{MatchResult};

use crate::register::{Column, Register};
use chips::refusal::Refusal;

impl TryFrom<u64> for Register {
    type Error = Refusal;

    ghost use Rattle.chips.specs.Questions.{FirstNo};
    ghost use Rattle.mm58274c.specs.Address.{Is};
    ghost use Rattle.mm58274c.specs.Registers.{read_questions};

    ghost try_from_gives = { λ address r. MatchResult r (λ register. Is register address) (λ refusal. FirstNo (read_questions address) refusal) };

    fn try_from(address: u64) -> Result<Register, Refusal> {
        match address {
            0 => Ok(Register::Control),
            1 => Ok(Register::Tenths),
            2..=14 => Ok(Register::Digit(Column {
                index: address as usize - 1,
            })),
            15 => Ok(Register::Selected),
            _ => Err(Refusal::NoAddress),
        }
    }
}
