// The counters over a wait.
ghost use Rattle.std.specs.Prelude.{◌≡◌, ◌+◌, ◌%◌, if◌then◌else◌};
ghost use Rattle.clock.specs.Divider.{period, stepped, tenths};
ghost use Rattle.clock.specs.Mm58274c.{step};
ghost use Rattle.clock.specs.Times.{times};
ghost use Rattle.mm58274c.specs.View.{time};

use crate::counters::Counters;

impl Counters {
    // Waits, and answers the steps counted.
    pub(crate) fn wait(&mut self, cycles: u64) -> u64
        ensures steps { result ≡ (if (time self.old).running then stepped tenths (time self.old).held cycles else 0) }
        ensures digits { (time self.new).digits ≡ times result step (time self.old).digits }
        ensures running { (time self.new).running ≡ (time self.old).running }
        ensures held { (time self.new).held ≡ (if (time self.old).running then ((time self.old).held + cycles) % period tenths else (time self.old).held) }
    {
        match self {
            Counters::Stopped(_) => 0,
            Counters::Running(clock) => clock.wait(cycles),
        }
    }
}
