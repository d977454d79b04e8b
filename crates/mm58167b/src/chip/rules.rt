// The MM58167B keeps the chip rules.
ghost use Rattle.std.specs.Prelude.{refl};
ghost use Rattle.chips.specs.Behaviour.{does_by};
ghost use Rattle.mm58167b.specs.Does.{behaviour, kind as kind_167};
ghost use Rattle.mm58167b.specs.View.{registers, state as state_167};
ghost use Rattle.mm58167b.specs.Laws.{kind_laws, sound, keeps};
ghost use Rattle.chips.proofs.Behaving.{rules as keep_rules, determined};
ghost use Rattle.mm58167b.specs.Told.{registers_tell};

use crate::chip::Mm58167b;
use crate::chip::access::byte;
use crate::halves::byte_at;
use crate::register::Register;
use chips::ask::Waited;
use chips::chip::Chip;
use chips::digits::Digits;
use chips::numbers::Numbers;
use chips::refusal::Refusal;

impl Chip for Mm58167b {
    const NUMBERS: Numbers = Numbers {
        columns: 14,
        round: 220_752_000_000,
        m: 128,
        d: 3,
        k: 32,
    };

    ghost NUMBERS = { record { columns = 14; round = 220752000000; m = 128; d = 3; k = 32 } };

    ghost kind = { kind_167 };

    ghost state = { state_167 };

    ghost does = { does_by behaviour registers };

    ghost constants_are_the_kinds = { refl };

    ghost kind_comes_round = { kind_laws };

    ghost sound_at_every_moment = { λ x. sound x };

    ghost keeps_the_chip_rules = { λ x y a r h. keep_rules behaviour registers keeps x y a r h };

    ghost has_one_answer = { λ x y z a r q h k. determined behaviour registers registers_tell x y z a r q h k };

    fn age(&self) -> u64 {
        self.age.cycles
    }

    fn wait(&mut self, cycles: u64) -> Result<Waited, Refusal> {
        let age = self.age.grown(cycles)?;
        let steps = self.clock.wait(cycles);
        self.status |= self.seen & (steps > 0);
        self.age = age;
        Ok(Waited { steps })
    }

    fn arm(&mut self) {
        self.watch();
    }

    fn digit(&mut self, column: u64) -> Result<u8, Refusal> {
        let digit = Digits::shown(&self.clock.counters).digit(column)?;
        self.seen = true;
        self.calls.one_more();
        Ok(digit)
    }

    fn settle(&mut self) -> bool {
        let quiet = !self.status;
        self.watch();
        quiet
    }

    fn read(&mut self, address: u64) -> Result<u8, Refusal> {
        Ok(match Register::try_from(address)? {
            Register::Counter(place) => {
                self.seen = true;
                byte_at(&Digits::shown(&self.clock.counters), place)
            }
            Register::Ram(place) => byte_at(&self.ram, place),
            Register::Status => self.read_status(),
        })
    }

    // This chip never rings.
    fn take(&mut self) -> bool {
        false
    }

    fn write(&mut self, address: u64, value: u64) -> Result<(), Refusal> {
        match Register::try_from(address)? {
            Register::Counter(place) => self.write_counter(place, byte(value)?),
            Register::Ram(place) => {
                self.write_ram(place, byte(value)?);
                Ok(())
            }
            Register::Status => Err(Refusal::NotWritable),
        }
    }
}
