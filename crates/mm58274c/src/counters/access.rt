// The digits of the counters, and what a write makes of them.
ghost use Rattle.std.specs.Prelude.{◌≡◌, true, false};
ghost use Rattle.mm58274c.specs.Registers.{made, stop_written};
ghost use Rattle.mm58274c.specs.View.{Becomes, time};

use crate::counters::Counters;
use chips::digits::Digits;
use chips::refusal::Refusal;
use clock::ticking::Ticking;

impl Counters {
    // Stopped, every digit 0.
    pub(crate) fn zero() -> Counters
        ensures { time result ≡ made.time }
    {
        Counters::Stopped(Digits { columns: [0; 15] })
    }

    pub(crate) fn digits(&self) -> Digits<15>
        ensures { result.columns ≡ (time self.now).digits }
    {
        match self {
            Counters::Stopped(digits) => *digits,
            Counters::Running(clock) => Digits::shown(&clock.counters),
        }
    }

    // These counters with other digits. Running, they want a lawful face.
    pub(crate) fn holding(self, digits: Digits<15>) -> Result<Counters, Refusal>
        ensures { Becomes (record { digits = digits.columns; running = (time self).running; held = (time self).held }) result }
    {
        match self {
            Counters::Stopped(_) => Ok(Counters::Stopped(digits)),
            Counters::Running(clock) => {
                let counters = digits.counters()?;
                Ok(Counters::Running(Ticking {
                    counters,
                    held: clock.held,
                }))
            }
        }
    }

    pub(crate) fn started(self) -> Result<Counters, Refusal>
        ensures { Becomes (stop_written false (time self)) result }
    {
        match self {
            Counters::Running(_) => Ok(self),
            Counters::Stopped(digits) => {
                let counters = digits.counters()?;
                Ok(Counters::Running(Ticking::started(counters)))
            }
        }
    }

    // Stopped, with tenths and divider at 0.
    pub(crate) fn stopped(self) -> Counters
        ensures { time result ≡ stop_written true (time self) }
    {
        Counters::Stopped(self.digits().with(0, 0))
    }
}
