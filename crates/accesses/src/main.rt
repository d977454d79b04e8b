// Sets, starts and reads both chips as a driver does, access by access, and tells what each access came to.
#![tactic(auto)]

use chips::chip::{Chip, numbers_of};
use chips::numbers::Numbers;
use mm58167b::chip::Mm58167b;
use mm58274c::chip::Mm58274c;
use std::io;
use words::Grouped;

mod bus;
mod caption;
mod refused;
mod tape;

use bus::Bus;

// What a kind of chip fixes.
fn introduce<C: Chip>(rt: &HostRuntime, name: &str, step: &str) -> io::Result<()> {
    let Numbers {
        columns,
        round,
        m,
        d,
        k,
    } = numbers_of::<C>();
    println!(rt;
        "{name}: {columns} columns, {d} of every {m} cycles dropped, a {step} every {} of the rest, a round of {}.",
        Grouped(u64::from(k)),
        Grouped(round)
    )
}

fn main(rt: HostRuntime) -> io::Result<()> {
    introduce::<Mm58274c>(&rt, "MM58274C", "tenth of a second")?;
    introduce::<Mm58167b>(&rt, "MM58167B", "millisecond")?;
    caption::follow(&mut Bus {
        rt: &rt,
        chip: &mut Mm58274c::new(),
        step: "tenth",
    })?;
    tape::follow(&mut Bus {
        rt: &rt,
        chip: &mut Mm58167b::new(),
        step: "millisecond",
    })
}
