// Follows a caption machine's clock over midnight, over a day and over a round, and tells what each wait counted and what the clock showed.
#![tactic(auto)]

ghost use Rattle.std.specs.Prelude.{◌≡◌, ◌≤◌};
ghost use Rattle.clock.specs.declared.hour.Hour.TheVariants.{TwentyFour};

use clock::calendar::Calendar;
use clock::date::Date;
use clock::divider::{DAY, SECOND};
use clock::hour::{Hour, HourOfDay};
use clock::mm58274c::Running;
use clock::ticking::Ticking;
use std::io;
use words::Several;

mod display;

use display::{Day, Face, TimeOfDay};

// A clock just started, a tenth before midnight.
fn before_midnight(date: Date, weekday: u8) -> Ticking<Running, 15>
    requires { (1 ≤ weekday) × (weekday ≤ 7) }
    ensures held { result.held ≡ 0 }
    ensures time { (result.counters.tenths ≡ 9) × (result.counters.seconds ≡ 59) × (result.counters.minutes ≡ 59) × (result.counters.hour.hour ≡ TwentyFour 23) }
    ensures date { (result.counters.weekday ≡ weekday) × (result.counters.date ≡ date) }
{
    let hour = HourOfDay {
        hour: Hour::TwentyFour(23),
    };
    let counters = Running {
        tenths: 9,
        seconds: 59,
        minutes: 59,
        hour,
        weekday,
        date,
    };
    Ticking::started(counters)
}

// A caption machine that tells what its clock counts and shows.
#[derive(Drop)]
struct CaptionMachine<'a> {
    rt: &'a HostRuntime,
    clock: Ticking<Running, 15>,
}

impl CaptionMachine<'_> {
    fn show(&self) -> io::Result<()> {
        let counters = self.clock.counters;
        println!(self.rt;
            "  The clock shows {}, {}, day of week {}, leap count {} (face {}).",
            Day(counters.date),
            TimeOfDay(counters),
            counters.weekday,
            counters.date.leap,
            Face(counters.face())
        )
    }

    // Waits and tells what was counted.
    fn wait(&mut self, what: &str, cycles: u64) -> io::Result<()> {
        let steps = Several(self.clock.wait(cycles), "tenth");
        println!(self.rt;
            "  {what}: a wait of {} counts {steps}.",
            Several(cycles, "cycle")
        )
    }

    // Over midnight, a day on, and a round on.
    fn follow(&mut self) -> io::Result<()> {
        let divider = Running::divider();
        let period = divider.period();
        let tenths = divider.counted(period);
        self.show()?;
        self.wait("Just short of a tenth", period / tenths - 1)?;
        self.wait("One cycle more, on top of those left over", 1)?;
        self.show()?;
        self.wait("A whole day on", DAY)?;
        self.show()?;
        let before = self.clock.counters.face();
        self.wait("A whole round on", Running::round() / tenths * period)?;
        self.show()?;
        if self.clock.counters.face() == before {
            println!(self.rt; "  That is the face from before the round.")
        } else {
            println!(self.rt; "  That is another face than before the round.")
        }
    }
}

// The crystal and the divider.
fn introduce(rt: &HostRuntime) -> io::Result<()> {
    let divider = Running::divider();
    let period = divider.period();
    println!(rt; "A caption machine takes its time from an MM58274C.")?;
    println!(rt;
        "Its crystal makes {} a second, and its divider counts {} in them.",
        Several(SECOND, "cycle"),
        Several(divider.counted(SECOND), "tenth")
    )?;
    println!(rt;
        "After every {}, which are {}, the divider stands as it stood.",
        Several(period, "cycle"),
        Several(divider.counted(period), "tenth")
    )
}

// A clock from 28 February on.
fn tell(rt: &HostRuntime, year: &str, date: Date, weekday: u8) -> io::Result<()>
    requires { (1 ≤ weekday) × (weekday ≤ 7) }
{
    println!(rt; "\n{year}: the clock has just been started.")?;
    let clock = before_midnight(date, weekday);
    CaptionMachine { rt, clock }.follow()
}

fn main(rt: HostRuntime) -> io::Result<()> {
    introduce(&rt)?;
    let leap_year = Date {
        day: 28,
        month: 2,
        leap: 0,
        year: 84,
    };
    tell(&rt, "A leap year", leap_year, 3)?;
    let common_year = Date {
        day: 28,
        month: 2,
        leap: 1,
        year: 85,
    };
    tell(&rt, "A common year", common_year, 5)
}
