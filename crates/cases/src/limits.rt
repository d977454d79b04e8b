// The age limit, and numbers as large as they come.
use crate::acts::{Act, WrongAt, perform};
use chips::chip::{Chip, numbers_of};
use mm58167b::chip::Mm58167b;
use mm58274c::chip::Mm58274c;

const OLDEST: u64 = 1 << 60;

// The steps that a wait to the age OLDEST - 1 counts on a chip just made, and then the limit.
fn limit<C: Chip>(chip: &mut C, steps: u64) -> Result<(), WrongAt> {
    let acts = [
        Act::Wait(OLDEST + 1, Err(5)),
        Act::Wait(u64::MAX, Err(5)),
        Act::Wait(OLDEST - 1, Ok(steps)),
        Act::Wait(2, Err(5)),
        Act::Wait(u64::MAX, Err(5)),
        Act::Wait(1, Ok(0)),
        Act::Wait(1, Err(5)),
        Act::Wait(0, Ok(0)),
    ];
    perform(chip, &acts)
}

#[test]
fn age_2_60_less_1_takes_a_wait_of_1_and_refuses_2(rt: HostRuntime) {
    let mut stopped = Mm58274c::new();
    assert_eq!(rt; limit(&mut stopped, 0), Ok(()));
    assert_eq!(rt; stopped.age(), OLDEST);
    let mut running = Mm58167b::new();
    assert_eq!(rt; limit(&mut running, OLDEST / 4_096 * 125), Ok(()));
    assert_eq!(rt; running.age(), OLDEST);
}

#[test]
fn what_each_kind_fixes(rt: HostRuntime) {
    let tenths = numbers_of::<Mm58274c>();
    assert_eq!(rt; tenths.columns, 15);
    assert_eq!(rt; tenths.round, 220_903_200_000);
    let milliseconds = numbers_of::<Mm58167b>();
    assert_eq!(rt; milliseconds.columns, 14);
    assert_eq!(rt; milliseconds.round, 220_752_000_000);
}
