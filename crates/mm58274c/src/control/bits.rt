// The control register by its bits: bit 3 test, bit 2 stop, bit 1 select, bit 0 timer halt.
ghost use Rattle.std.specs.Prelude.{◌≡◌, true, false, MatchResult};

use crate::bits::has_bit;
use crate::control::Control;
use crate::nibble::Nibble;
use chips::refusal::Refusal;

impl TryFrom<Nibble> for Control {
    type Error = Refusal;

    ghost use Rattle.chips.specs.declared.refusal.Refusal.TheVariants.{TestBit};
    ghost use Rattle.mm58274c.specs.Bits.{bit};

    ghost try_from_gives = { λ nibble r. MatchResult r (λ c. (c.stop ≡ bit 2 nibble.value) × (c.select ≡ bit 1 nibble.value) × (c.halt ≡ bit 0 nibble.value) × (bit 3 nibble.value ≡ false)) (λ refusal. (refusal ≡ TestBit) × (bit 3 nibble.value ≡ true)) };

    fn try_from(nibble: Nibble) -> Result<Control, Refusal> {
        if has_bit(nibble.value, 3) {
            return Err(Refusal::TestBit);
        }
        Ok(Control {
            stop: has_bit(nibble.value, 2),
            select: has_bit(nibble.value, 1),
            halt: has_bit(nibble.value, 0),
        })
    }
}
