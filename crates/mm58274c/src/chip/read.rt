// Reads of the control register, at address 0.
ghost use Rattle.std.specs.Prelude.{◌≡◌};
ghost use Rattle.mm58274c.specs.Registers.{after_read, shown_at, watched};
ghost use Rattle.mm58274c.specs.View.{registers};

use crate::chip::Mm58274c;

impl Mm58274c {
    // Bit 3 is the data-changed flag, bit 0 the interrupt flag. The read clears both.
    pub(super) fn read_control(&mut self) -> u8
        ensures value { result ≡ shown_at (registers self.old) 0 }
        ensures after { registers self.new ≡ after_read (registers self.old) 0 }
    {
        let status = (u8::from(self.flags.changed) << 3) | u8::from(self.flags.rang);
        self.flags.changed = false;
        self.flags.rang = false;
        self.armed = false;
        status
    }

    // The read that arms and settles. It keeps a ring that it clears.
    pub(super) fn watch(&mut self)
        ensures { registers self.new ≡ watched (registers self.old) }
    {
        self.flags.kept |= self.flags.rang;
        self.read_control();
        self.armed = true;
        self.calls.one_more();
    }
}
