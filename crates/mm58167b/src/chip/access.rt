// Accesses, once it is known to which register.
ghost use Rattle.std.specs.Prelude.{◌≡◌, ◌≤◌, MatchResult};
ghost use Rattle.chips.specs.declared.refusal.Refusal.TheVariants.{TooWide};
ghost use Rattle.mm58167b.specs.Layout.{with_byte};
ghost use Rattle.mm58167b.specs.Registers.{after_read, shown_at, watched, with_digits};
ghost use Rattle.mm58167b.specs.View.{Lands, registers};

use crate::chip::Mm58167b;
use crate::halves::with_byte;
use crate::register::Place;
use chips::digits::Digits;
use chips::refusal::Refusal;

// A value as a byte of the bus.
pub(super) fn byte(value: u64) -> Result<u8, Refusal>
    ensures { MatchResult result (λ b. (b ≡ value) × (value ≤ 255)) (λ e. (e ≡ TooWide) × (value ≤ 255 → ⊥)) }
{
    u8::try_from(value).map_err(|_| Refusal::TooWide)
}

impl Mm58167b {
    // The read clears it, and forgets the counters read before.
    pub(super) fn read_status(&mut self) -> u8
        ensures value { result ≡ shown_at (registers self.old) 20 }
        ensures after { registers self.new ≡ after_read (registers self.old) 20 }
    {
        let status = u8::from(self.status);
        self.status = false;
        self.seen = false;
        self.armed = false;
        status
    }

    // The reads that arm and settle: the status, and then milliseconds.
    pub(super) fn watch(&mut self)
        ensures { registers self.new ≡ watched (registers self.old) }
    {
        self.read_status();
        self.seen = true;
        self.armed = true;
        self.calls.one_more();
    }

    pub(super) fn write_counter(&mut self, place: Place, value: u8) -> Result<(), Refusal>
        ensures { Lands (with_digits (registers self.old) (with_byte (registers self.old).digits place.index value) (registers self.old).ram) self.old result self.new }
    {
        let digits = with_byte(Digits::shown(&self.clock.counters), place, value);
        self.clock.counters = digits.counters()?;
        Ok(())
    }

    pub(super) fn write_ram(&mut self, place: Place, value: u8)
        ensures { registers self.new ≡ with_digits (registers self.old) (registers self.old).digits (with_byte (registers self.old).ram place.index value) }
    {
        self.ram = with_byte(self.ram, place, value);
    }
}
