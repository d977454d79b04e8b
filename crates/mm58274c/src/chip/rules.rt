// The MM58274C keeps the chip rules.
ghost use Rattle.std.specs.Prelude.{refl};
ghost use Rattle.chips.specs.Behaviour.{does_by};
ghost use Rattle.mm58274c.specs.Does.{behaviour, kind as kind_274};
ghost use Rattle.mm58274c.specs.View.{registers, state as state_274};
ghost use Rattle.mm58274c.specs.Laws.{kind_laws, sound, keeps};
ghost use Rattle.chips.proofs.Behaving.{rules as keep_rules, determined};
ghost use Rattle.mm58274c.specs.Told.{registers_tell};

use crate::chip::Mm58274c;
use crate::control::Control;
use crate::digits::{with_digit, with_setting};
use crate::nibble::Nibble;
use crate::register::Register;
use crate::timer::Event;
use chips::ask::Waited;
use chips::chip::Chip;
use chips::numbers::Numbers;
use chips::refusal::Refusal;

impl Chip for Mm58274c {
    const NUMBERS: Numbers = Numbers {
        columns: 15,
        round: 220_903_200_000,
        m: 16,
        d: 1,
        k: 3072,
    };

    ghost NUMBERS = { record { columns = 15; round = 220903200000; m = 16; d = 1; k = 3072 } };

    ghost kind = { kind_274 };

    ghost state = { state_274 };

    ghost does = { does_by behaviour registers };

    ghost constants_are_the_kinds = { refl };

    ghost kind_comes_round = { kind_laws };

    ghost sound_at_every_moment = { λ x. sound x };

    ghost keeps_the_chip_rules = { λ x y a r h. keep_rules behaviour registers keeps x y a r h };

    ghost has_one_answer = { λ x y z a r q h k. determined behaviour registers registers_tell x y z a r q h k };

    fn age(&self) -> u64 {
        self.age.cycles
    }

    fn wait(&mut self, cycles: u64) -> Result<Waited, Refusal> {
        let age = self.age.grown(cycles)?;
        let steps = self.counters.wait(cycles);
        let rang = self.interrupt.on(Event::Steps(steps));
        self.flags.changed |= steps > 0;
        self.flags.rang |= rang;
        self.age = age;
        Ok(Waited { steps })
    }

    fn arm(&mut self) {
        self.watch();
    }

    // Column 14, the setting register, is looked at under either select.
    fn digit(&mut self, column: u64) -> Result<u8, Refusal> {
        // A refused column makes no face.
        if column >= 15 {
            return Err(Refusal::NoColumn);
        }
        let digit = self.counters.digits().digit(column)?;
        self.calls.one_more();
        Ok(digit)
    }

    fn settle(&mut self) -> bool {
        let quiet = !self.flags.changed;
        self.watch();
        quiet
    }

    fn read(&mut self, address: u64) -> Result<u8, Refusal> {
        let column = match Register::try_from(address)? {
            Register::Control => return Ok(self.read_control()),
            Register::Selected if self.select => return Ok(self.interrupt.register.value),
            Register::Tenths => 0,
            Register::Digit(column) => column.index,
            Register::Selected => 14,
        };
        Ok(self.counters.digits().columns[column])
    }

    fn take(&mut self) -> bool {
        let rang = self.flags.rang | self.flags.kept;
        self.flags.rang = false;
        self.flags.kept = false;
        rang
    }

    fn write(&mut self, address: u64, value: u64) -> Result<(), Refusal> {
        match Register::try_from(address)? {
            Register::Control => self.write_control(Control::try_from(Nibble::try_from(value)?)?),
            Register::Tenths => Err(Refusal::NotWritable),
            Register::Digit(column) => {
                let digit = Nibble::try_from(value)?;
                let digits = self.counters.digits();
                self.hold(with_digit(digits, column, digit))
            }
            Register::Selected if self.select => {
                self.load_interrupt(Nibble::try_from(value)?);
                Ok(())
            }
            Register::Selected => {
                let setting = Nibble::try_from(value)?;
                let digits = self.counters.digits();
                self.hold(with_setting(digits, setting))
            }
        }
    }
}
