// A chip on its bus. Each access tells what it came to.
use crate::refused::Refused;
use chips::chip::Chip;
use chips::refusal::Refusal;
use std::io;
use words::Several;

#[derive(Drop)]
pub(crate) struct Bus<'a, C: Chip> {
    pub(crate) rt: &'a HostRuntime,
    pub(crate) chip: &'a mut C,
    // what the chip's divider counts
    pub(crate) step: &'a str,
}

impl<C: Chip> Bus<'_, C> {
    pub(crate) fn write(&mut self, address: u64, value: u64, what: &str) -> io::Result<()> {
        let refused = Refused(self.chip.write(address, value).err());
        println!(self.rt; "  write {value} at {address}: {what}{refused}")
    }

    // Addresses and values, one after the other, each with what it is.
    pub(crate) fn write_each(&mut self, writes: &[(u64, u64, &str)]) -> io::Result<()> {
        for (address, value, what) in writes {
            self.write(*address, *value, what)?;
        }
        Ok(())
    }

    pub(crate) fn read(&mut self, address: u64, what: &str) -> io::Result<()> {
        match self.chip.read(address) {
            Ok(value) => println!(self.rt; "  read at {address}: {value}, {what}"),
            Err(refusal) => {
                println!(self.rt; "  read at {address}: {what}{}", Refused(Some(refusal)))
            }
        }
    }

    pub(crate) fn wait(&mut self, cycles: u64) -> io::Result<()> {
        let answer = self.chip.wait(cycles);
        let cycles = Several(cycles, "cycle");
        match answer {
            Ok(waited) => println!(self.rt;
                "  wait {cycles}: {}",
                Several(waited.steps, self.step)
            ),
            Err(refusal) => println!(self.rt; "  wait {cycles}{}", Refused(Some(refusal))),
        }
    }

    pub(crate) fn take(&mut self) -> io::Result<()> {
        let rang = if self.chip.take() {
            "a ring"
        } else {
            "no ring"
        };
        println!(self.rt; "  take: {rang}")
    }

    // What the registers at `N` addresses from `first` on hold.
    pub(crate) fn registers<const N: usize>(&mut self, first: u64) -> Result<[u8; N], Refusal> {
        let mut values = [0; N];
        for (address, value) in (first..).zip(&mut values) {
            *value = self.chip.read(address)?;
        }
        Ok(values)
    }
}
