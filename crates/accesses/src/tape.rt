// A tape controller, which takes its time from an MM58167B.
use crate::bus::Bus;
use clock::divider::SECOND;
use mm58167b::chip::Mm58167b;
use std::io;
use words::month::Month;

// the last second of the year, with one day that it has not
const NIGHT: [(u64, u64, &str); 8] = [
    (7, 0x12, "0x12, month 12"),
    (6, 0x32, "0x32, day 32"),
    (6, 0x31, "0x31, day 31"),
    (5, 0x07, "0x07, day of week 7"),
    (4, 0x23, "0x23, hour 23"),
    (3, 0x59, "0x59, minute 59"),
    (2, 0x59, "0x59, second 59"),
    (20, 0, "the rollover status"),
];

// Two digits a byte, the tens in the high half.
fn show(bus: &mut Bus<'_, Mm58167b>) -> io::Result<()> {
    let Ok(registers) = bus.registers::<8>(0) else {
        return println!(bus.rt; "  read at 0 to 7: refused");
    };
    let [
        thousandths,
        hundredths,
        seconds,
        minutes,
        hours,
        weekday,
        day,
        month,
    ] = registers;
    let thousandths = thousandths >> 4;
    let month = Month((month >> 4) * 10 + (month & 15));
    println!(bus.rt;
        "  read at 0 to 7: {day:02x} {month}, {hours:02x}:{minutes:02x}:{seconds:02x}.{hundredths:02x}{thousandths}, day of week {weekday}"
    )
}

// The status tells a step only if a counter was read before it.
fn over_midnight(bus: &mut Bus<'_, Mm58167b>) -> io::Result<()> {
    bus.read(20, "no step has come since a counter was read")?;
    bus.wait(SECOND)?;
    bus.read(20, "no counter had been read since the status was")?;
    show(bus)?;
    bus.wait(32)?;
    bus.read(20, "a step has come since a counter was read")
}

pub(crate) fn follow(bus: &mut Bus<'_, Mm58167b>) -> io::Result<()> {
    println!(bus.rt;
        "\nA tape controller has an MM58167B, which runs from the moment that it is made."
    )?;
    show(bus)?;
    println!(bus.rt; "\nIts driver sets it to the last second of the year, two digits a byte.")?;
    bus.write_each(&NIGHT)?;
    show(bus)?;
    over_midnight(bus)?;
    println!(bus.rt; "\nA half that a byte lacks drops what is written, in RAM too.")?;
    bus.write(13, 0xc7, "0xc7, in the layout of day of week")?;
    bus.read(13, "the low half alone")
}
