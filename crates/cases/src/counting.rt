// Faces counted in one go against single steps.
ghost use Rattle.std.specs.Prelude.{◌≤◌};

use crate::plain::{Date, Hour, Mm58167b, Mm58274c, Plain, Year};
use crate::worked::steps_on;
use clock::calendar::Calendar;
use clock::mm58167b::Running as Running167;
use clock::mm58274c::Running as Running274;
use clock::ticking::Ticking;
use std::test::Fail;

// leap days, ends of months and of the year
const DATES: [Date; 8] = [
    Date { day: 28, month: 2 },
    Date { day: 29, month: 2 },
    Date { day: 1, month: 3 },
    Date { day: 31, month: 1 },
    Date { day: 30, month: 4 },
    Date { day: 30, month: 11 },
    Date { day: 31, month: 12 },
    Date { day: 1, month: 1 },
];

const YEARS: [Year; 5] = [
    Year { leap: 0, year: 84 },
    Year { leap: 1, year: 85 },
    Year { leap: 2, year: 99 },
    Year { leap: 3, year: 99 },
    Year { leap: 0, year: 0 },
];
// about noon and midnight in both modes
const HOURS: [Hour; 9] = [
    Hour::Of24(23),
    Hour::Of24(0),
    Hour::Of24(11),
    Hour::Of24(12),
    Hour::Pm(11),
    Hour::Am(11),
    Hour::Pm(12),
    Hour::Am(12),
    Hour::Pm(1),
];

// Whether n steps in one go are n single steps; None where the face is not lawful.
fn agrees<C: Calendar<N>, P: Plain<N>, const N: usize>(start: &P, n: u32) -> Option<bool>
    requires { N ≤ 15 }
{
    let mut counters = C::from_face(&start.face())?;
    counters.advance(u64::from(n));
    let mut plain = *start;
    for _ in 0..n {
        plain.step();
    }
    Some(counters.face() == plain.face())
}

// 8 dates, 5 years and 9 hours make 360 faces, of which the 27 with 29 February after a leap year are unlawful.
#[test]
fn leap_days_year_ends_noon_and_midnight_by_tenths(rt: HostRuntime) {
    for n in [0, 1, 2, 601, 36_001] {
        let agree = YEARS.map(|year| {
            DATES.map(|date| {
                HOURS.map(|hour| {
                    agrees::<Running274, _, 15>(&Mm58274c::at_the_end_of(hour, date, year), n)
                })
            })
        });
        let lawful = agree.iter().flatten().flatten().flatten();
        let alike = lawful.fold(
            0u32,
            |alike, agrees| alike.saturating_add(u32::from(*agrees)),
        );
        assert_eq!(rt; alike, 333);
        let mut lawful = agree.iter().flatten().flatten().flatten();
        assert!(rt; lawful.all(|agrees| *agrees));
    }
}

#[test]
fn forty_days_by_tenths(rt: HostRuntime) {
    for date in [Date { day: 28, month: 2 }, Date { day: 31, month: 12 }] {
        for year in [Year { leap: 0, year: 84 }, Year { leap: 3, year: 99 }] {
            let start = Mm58274c::at_the_end_of(Hour::Pm(11), date, year);
            assert_eq!(rt; agrees::<Running274, _, 15>(&start, 34_560_000), Some(true));
        }
    }
}

#[test]
fn month_ends_and_midnight_by_milliseconds(rt: HostRuntime) {
    let agree = [0, 1, 2, 1_001, 3_600_001].map(|n| {
        DATES.map(|date| agrees::<Running167, _, 14>(&Mm58167b::at_the_end_of(date), n))
    });
    let lawful = agree.iter().flatten().flatten();
    assert_eq!(rt; lawful.filter(|agrees| **agrees).count(), 35);
    let mut lawful = agree.iter().flatten().flatten();
    assert!(rt; lawful.all(|agrees| *agrees));
}

// 3,276 cycles make the first tenth, and of the rest of a period four more are counted.
#[test]
fn a_clone_of_a_running_clock_counts_on_as_it_does(rt: HostRuntime) -> Result<(), Fail> {
    let new_year = Date { day: 31, month: 12 };
    let start = Mm58274c::at_the_end_of(Hour::Pm(11), new_year, Year { leap: 3, year: 99 });
    let counters = Running274::from_face(&start.face()).ok_or("unlawful")?;
    let mut clock = Ticking::started(counters);
    assert_eq!(rt; clock.wait(3_276), 1);
    let mut clone = clock.clone()?;
    assert_eq!(rt; clone.held, 3_276);
    assert_eq!(rt; clone.counters.face(), clock.counters.face());
    assert_eq!(rt; clone.wait(16_384 - 3_276), 4);
    assert_eq!(rt; clone.held, 0);
    assert_eq!(rt; clock.held, 3_276);
    assert_eq!(rt; clock.wait(16_384 - 3_276), 4);
    assert_eq!(rt; clone.counters.face(), clock.counters.face());
    Ok(())
}

// A round brings a face back, and so do as many rounds as a number of 64 bits can hold; one step less does not.
#[test]
fn whole_rounds(rt: HostRuntime) {
    let leap_day = Date { day: 29, month: 2 };
    let leap_year = Year { leap: 0, year: 84 };
    let face = Mm58274c::at_the_end_of(Hour::Pm(12), leap_day, leap_year).face();
    let round = Running274::round();
    assert_eq!(rt; steps_on(&face, round), Some(face));
    assert_eq!(rt; steps_on(&face, u64::MAX / round * round), Some(face));
    assert_ne!(rt; steps_on(&face, round - 1), Some(face));
    assert_eq!(rt;
        steps_on(&face, u64::MAX),
        steps_on(&face, u64::MAX % round)
    );
}
