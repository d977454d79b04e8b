// Writes, once it is known for which register.
ghost use Rattle.std.specs.Prelude.{◌≡◌};
ghost use Rattle.mm58274c.specs.Registers.{controlled, interrupt_written, with_digits};
ghost use Rattle.mm58274c.specs.View.{Lands, registers};

use crate::chip::Mm58274c;
use crate::control::Control;
use crate::nibble::Nibble;
use crate::timer::Event;
use chips::digits::Digits;
use chips::refusal::Refusal;

impl Mm58274c {
    pub(super) fn write_control(&mut self, control: Control) -> Result<(), Refusal>
        ensures { Lands (controlled (registers self.old) control.stop control.select control.halt) self.old result self.new }
    {
        let counters = if control.stop {
            self.counters.stopped()
        } else {
            self.counters.started()?
        };
        let event = if control.halt {
            Event::Halt
        } else {
            Event::Start
        };
        self.counters = counters;
        self.select = control.select;
        self.interrupt.on(event);
        Ok(())
    }

    pub(super) fn load_interrupt(&mut self, nibble: Nibble)
        ensures { registers self.new ≡ interrupt_written (registers self.old) nibble.value }
    {
        self.interrupt.load(nibble);
    }

    pub(super) fn hold(&mut self, digits: Digits<15>) -> Result<(), Refusal>
        ensures { Lands (with_digits (registers self.old) digits.columns) self.old result self.new }
    {
        self.counters = self.counters.holding(digits)?;
        Ok(())
    }
}
