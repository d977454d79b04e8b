// A caption machine, which takes its time from an MM58274C.
use crate::bus::Bus;
use clock::divider::{DAY, SECOND};
use mm58274c::chip::Mm58274c;
use std::io;
use words::month::Month;

// a round of tenths, of which five take 16,384 cycles
const ROUND: u64 = 220_903_200_000 / 5 * 16_384;
// the last second of 28 February, which is day 3 of the week
const NIGHT: [(u64, u64, &str); 11] = [
    (2, 9, "units of seconds"),
    (3, 5, "tens of seconds"),
    (4, 9, "units of minutes"),
    (5, 5, "tens of minutes"),
    (6, 3, "units of hours"),
    (7, 2, "tens of hours"),
    (8, 8, "units of days"),
    (9, 2, "tens of days"),
    (10, 2, "units of months"),
    (11, 0, "tens of months"),
    (14, 3, "day of week"),
];

fn show(bus: &mut Bus<'_, Mm58274c>) -> io::Result<()> {
    let Ok(registers) = bus.registers::<15>(1) else {
        return println!(bus.rt; "  read at 1 to 15: refused");
    };
    let [
        tenths,
        s0,
        s1,
        m0,
        m1,
        h0,
        h1,
        d0,
        d1,
        n0,
        n1,
        y0,
        y1,
        weekday,
        setting,
    ] = registers;
    let month = Month(n1.wrapping_mul(10).wrapping_add(n0));
    let leap = setting >> 2;
    println!(bus.rt;
        "  read at 1 to 15: {d1}{d0} {month} {y1}{y0}, {h1}{h0}:{m1}{m0}:{s1}{s0}.{tenths}, day of week {weekday}, leap count {leap}"
    )
}

// The last second of 28 February, in 24-hour mode with this leap count, in a year of the eighties.
fn set(bus: &mut Bus<'_, Mm58274c>, leap: u8, year: u8) -> io::Result<()> {
    bus.write(0, 5, "stop the clock and halt the timer")?;
    bus.write(15, u64::from(leap) * 4 + 1, "leap count and 24-hour mode")?;
    bus.write_each(&NIGHT)?;
    bus.write(12, u64::from(year), "units of years")?;
    bus.write(13, 8, "tens of years")?;
    bus.write(0, 1, "start the clock")?;
    show(bus)
}

fn over_midnight(bus: &mut Bus<'_, Mm58274c>) -> io::Result<()> {
    bus.read(0, "no step has come since it was made")?;
    bus.wait(3_275)?;
    bus.wait(1)?;
    bus.read(0, "the data-changed flag")?;
    bus.wait(SECOND - 3_276)?;
    show(bus)
}

// An interrupt every half second: five tenths, again and again.
fn half_seconds(bus: &mut Bus<'_, Mm58274c>) -> io::Result<()> {
    println!(bus.rt; "\nIts timer rings.")?;
    bus.write(0, 3, "select the interrupt register")?;
    bus.write(15, 10, "half a second, repeated")?;
    bus.write(0, 0, "select the setting register, and start the timer")?;
    bus.wait(SECOND / 4)?;
    bus.take()?;
    bus.wait(SECOND / 4)?;
    bus.take()?;
    bus.wait(SECOND / 2)?;
    bus.read(
        0,
        "the data-changed flag and the interrupt flag, which the read clears",
    )?;
    bus.take()
}

fn refusals(bus: &mut Bus<'_, Mm58274c>) -> io::Result<()> {
    println!(bus.rt; "\nRunning, it takes no face that is not lawful.")?;
    bus.write(9, 3, "tens of days")?;
    show(bus)
}

fn days_on(bus: &mut Bus<'_, Mm58274c>) -> io::Result<()> {
    println!(bus.rt; "\nA day and a round on:")?;
    bus.wait(DAY)?;
    show(bus)?;
    bus.wait(ROUND)?;
    show(bus)
}

pub(crate) fn follow(bus: &mut Bus<'_, Mm58274c>) -> io::Result<()> {
    println!(bus.rt;
        "\nA caption machine has an MM58274C, which is made stopped, with every register 0."
    )?;
    bus.write(0, 0, "start the clock")?;
    bus.write(1, 9, "tenths")?;
    println!(bus.rt; "\nIts driver sets it to a leap year.")?;
    set(bus, 0, 4)?;
    over_midnight(bus)?;
    refusals(bus)?;
    half_seconds(bus)?;
    days_on(bus)?;
    println!(bus.rt; "\nIts driver sets it to a common year.")?;
    set(bus, 1, 5)?;
    bus.wait(SECOND)?;
    show(bus)
}
