// The MM58274C's timer.
use crate::acts::{Act, perform};
use chips::chip::Chip;
use chips::refusal::Refusal;
use mm58274c::chip::Mm58274c;
use std::test::Fail;

// 1 January 00, 08:00:00, day of week 1, in 24-hour mode; and started, with the interrupt register selected and the timer halted.
const MORNING: [(u64, u64); 6] = [(15, 1), (6, 8), (8, 1), (10, 1), (14, 1), (0, 3)];
// five steps of the clock
const PERIOD: u64 = 16_384;

#[derive(Clone, Copy, PartialEq, Eq, Debug)]
enum Fault {
    Refused(Refusal),
    // a wait for one step that counted so many
    Steps(u64),
    NoRing,
}

impl From<Refusal> for Fault {
    fn from(refusal: Refusal) -> Fault {
        Fault::Refused(refusal)
    }
}

// A running chip whose timer counts under this interrupt register.
fn counting(register: u64) -> Result<Mm58274c, Refusal> {
    let mut chip = Mm58274c::new();
    for (address, value) in MORNING {
        chip.write(address, value)?;
    }
    chip.write(15, register)?;
    chip.write(0, 2)?;
    Ok(chip)
}

// One step more, the one after so many from whole periods on, and whether it rang.
fn step(chip: &mut Mm58274c, before: u32) -> Result<bool, Fault> {
    let cycles = if before % 5 == 0 { 3_276 } else { 3_277 };
    match chip.wait(cycles)?.steps {
        1 => Ok(chip.take()),
        steps => Err(Fault::Steps(steps)),
    }
}

// The rings of so many steps, each waited for and taken by itself.
fn rings(register: u64, steps: u32) -> Result<u32, Fault> {
    let mut chip = counting(register)?;
    (0..steps).try_fold(0u32, |rings, before| {
        let rang = step(&mut chip, before)?;
        Ok(rings.saturating_add(u32::from(rang)))
    })
}

#[test]
fn delays(rt: HostRuntime) {
    let delays = [
        (1, 1),
        (2, 5),
        (3, 10),
        (4, 50),
        (5, 100),
        (6, 300),
        (7, 600),
    ];
    for (register, delay) in delays {
        assert_eq!(rt; rings(register, delay - 1), Ok(0));
        assert_eq!(rt; rings(register, delay), Ok(1));
        assert_eq!(rt; rings(register, 1_300), Ok(1));
        assert_eq!(rt; rings(register + 8, 6_000), Ok(6_000 / delay));
    }
    assert_eq!(rt; rings(0, 1_000), Ok(0));
    assert_eq!(rt; rings(8, 1_000), Ok(0));
}

// The steps before the one that rings next, one by one from whole periods on.
fn steps_to_ring(chip: &mut Mm58274c) -> Result<u32, Fault> {
    for before in 0..1_000 {
        if step(chip, before)? {
            return Ok(before);
        }
    }
    Err(Fault::NoRing)
}

// Many periods in one go, and one after the other: the same ring comes next.
fn agrees(register: u64, periods: u32) -> Result<bool, Fault> {
    let mut at_once = counting(register)?;
    let mut in_turn = at_once;
    at_once.wait(u64::from(periods) * PERIOD)?;
    for _ in 0..periods {
        in_turn.wait(PERIOD)?;
    }
    let same = at_once.take() == in_turn.take();
    Ok(same && steps_to_ring(&mut at_once)? == steps_to_ring(&mut in_turn)?)
}

#[test]
fn a_repeated_timer_in_one_go_is_as_many_single_steps(rt: HostRuntime) {
    for register in [9, 10, 11, 12, 13, 14, 15] {
        for periods in [0, 1, 7, 59, 60, 61, 119, 1_234] {
            assert_eq!(rt; agrees(register, periods), Ok(true));
        }
    }
}

// Loading halts, a start lets a counting timer be, and a halt gives the whole delay again.
#[test]
fn load_halt_and_start(rt: HostRuntime) -> Result<(), Fail> {
    let acts = [
        Act::Wait(PERIOD - 3_277, Ok(4)),
        Act::Write(0, 2, Ok(())),
        Act::Wait(3_277, Ok(1)),
        Act::Read(0, Ok(9)),
        Act::Take(false),
        Act::Wait(10 * PERIOD, Ok(50)),
        Act::Take(false),
        Act::Write(0, 2, Ok(())),
        Act::Wait(PERIOD - 3_277, Ok(4)),
        Act::Write(0, 3, Ok(())),
        Act::Write(0, 2, Ok(())),
        Act::Wait(PERIOD - 3_277, Ok(4)),
        Act::Take(false),
        Act::Wait(3_277, Ok(1)),
        Act::Take(true),
        Act::Take(false),
        Act::Write(0, 2, Ok(())),
        Act::Write(15, 10, Ok(())),
        Act::Wait(10 * PERIOD, Ok(50)),
        Act::Take(false),
        Act::Read(15, Ok(10)),
        Act::Write(0, 0, Ok(())),
        Act::Read(15, Ok(1)),
        Act::Wait(10 * PERIOD, Ok(50)),
        Act::Take(true),
    ];
    assert_eq!(rt; perform(&mut counting(2)?, &acts), Ok(()));
    Ok(())
}

// A ring that arming clears is kept for the next take; one that a plain read clears is gone.
#[test]
fn rings_that_reads_clear(rt: HostRuntime) -> Result<(), Fail> {
    let acts = [
        Act::Wait(3_277, Ok(1)),
        Act::Arm,
        Act::Read(0, Ok(0)),
        Act::Take(true),
        Act::Take(false),
        Act::Wait(3_277, Ok(1)),
        Act::Read(0, Ok(9)),
        Act::Take(false),
        Act::Wait(3_277, Ok(1)),
        Act::Settle(false),
        Act::Settle(true),
        Act::Take(true),
    ];
    assert_eq!(rt; perform(&mut counting(9)?, &acts), Ok(()));
    Ok(())
}
