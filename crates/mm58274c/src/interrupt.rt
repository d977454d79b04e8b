// The interrupt register, and the timer that counts under it.
ghost use Rattle.std.specs.Prelude.{◌≡◌};
ghost use Rattle.mm58274c.specs.Timer.{Timed, after};
ghost use Rattle.mm58274c.specs.declared.timer.Timer.TheVariants.{Halted};

use crate::nibble::Nibble;
use crate::timer::{Event, Timer};

#[derive(Clone, Copy)]
pub(crate) struct Interrupt {
    pub register: Nibble,
    pub timer: Timer,
    ghost timed: { Timed register.value timer },
}

impl Interrupt {
    // An event, and whether the timer came to its last step.
    pub(crate) fn on(&mut self, event: Event) -> bool
        ensures register { self.new.register ≡ self.old.register }
        ensures after { (self.new.timer, result) ≡ after self.old.register.value self.old.timer event }
    {
        let (timer, rang) = self.timer.on(event, self.register.value);
        self.timer = timer;
        rang
    }

    // A register is loaded, which halts the timer.
    pub(crate) fn load(&mut self, register: Nibble)
        ensures register { self.new.register ≡ register }
        ensures timer { self.new.timer ≡ Halted }
    {
        let (timer, _) = self.timer.on(Event::Load, self.register.value);
        *self = Interrupt { register, timer };
    }
}
