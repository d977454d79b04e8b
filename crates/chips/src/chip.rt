// The chip rules, as a trait.
ghost use Rattle.std.specs.Prelude.{◌≡◌};
ghost use Rattle.chips.specs.Kind.{Kind, KindLaws, Sound, State, fixed_by, numbers};
ghost use Rattle.chips.specs.Rules.{Reply, Rule};
ghost use Rattle.chips.specs.declared.numbers.Numbers.{Numbers as FixedNumbers};
ghost use Rattle.chips.specs.declared.ask.Ask.{Ask};
ghost use Rattle.chips.specs.declared.ask.Ask.TheVariants.{Wait, Arm, Digit, Settle, Read, Take, Write};

use crate::ask::Waited;
use crate::numbers::Numbers;
use crate::refusal::Refusal;

// The cycles that a chip may be waited for in all.
pub const OLDEST: u64 = 1 << 60;

pub trait Chip {
    // What the kind fixes: columns, round and divider numbers.
    const NUMBERS: Numbers;

    ghost NUMBERS: { FixedNumbers };

    ghost kind: { Kind };

    // What the chip means.
    ghost state: { Self → State };

    // What the kind does, exactly: its answer to an ask, and the chip that it then is.
    ghost does: { Self → (a : Ask) → Reply a → Self → Type 0 };

    // The cycles waited since the chip was made.
    fn age(&self) -> u64
        ensures { result ≡ (state self.now).age };

    fn wait(&mut self, cycles: u64) -> Result<Waited, Refusal>
        ensures { does self.old (Wait cycles) result self.new };

    fn arm(&mut self)
        ensures { does self.old Arm tt self.new };

    fn digit(&mut self, column: u64) -> Result<u8, Refusal>
        ensures { does self.old (Digit column) result self.new };

    fn settle(&mut self) -> bool
        ensures { does self.old Settle result self.new };

    fn read(&mut self, address: u64) -> Result<u8, Refusal>
        ensures { does self.old (Read address) result self.new };

    fn take(&mut self) -> bool
        ensures { does self.old Take result self.new };

    fn write(&mut self, address: u64, value: u64) -> Result<(), Refusal>
        ensures { does self.old (Write address value) result self.new };

    ghost constants_are_the_kinds: { numbers NUMBERS ≡ fixed_by kind };

    ghost kind_comes_round: { KindLaws kind };

    ghost sound_at_every_moment: { (x : Self) → Sound kind (state x) };

    // Whatever it does keeps the chip rules.
    ghost keeps_the_chip_rules: { (x y : Self) (a : Ask) (r : Reply a) → does x a r y → Rule kind state x a r y };

    // The answer and the chip after it follow from the chip before it and the ask.
    ghost has_one_answer: { (x y z : Self) (a : Ask) (r q : Reply a) → does x a r y → does x a q z → (r ≡ q) × (y ≡ z) };
}

// The numbers that a kind of chip fixes.
pub fn numbers_of<C: Chip>() -> Numbers
    ensures { numbers result ≡ fixed_by C.kind }
{
    C::NUMBERS
}
