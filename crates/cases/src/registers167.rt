// The MM58167B by bus accesses.
use crate::acts::{Act, perform};
use chips::chip::Chip;
use mm58167b::chip::Mm58167b;

#[test]
fn made_at_midnight_on_1_january(rt: HostRuntime) {
    let mut chip = Mm58167b::new();
    for (address, value) in (0..).zip([0, 0, 0, 0, 0, 1, 1, 1]) {
        assert_eq!(rt; chip.read(address), Ok(value));
    }
    for address in 8..16 {
        assert_eq!(rt; chip.read(address), Ok(0));
    }
    assert_eq!(rt; chip.read(20), Ok(0));
    assert!(rt; !chip.take());
}

// Halves that do not exist drop what is written and read 0.
#[test]
fn ram_keeps_its_halves(rt: HostRuntime) {
    let masks = [0xf0, 0xff, 0xff, 0xff, 0xff, 0x0f, 0xff, 0xff];
    let mut chip = Mm58167b::new();
    for value in [0xff, 0xa5, 0x5a, 0x00, 0x12] {
        for address in 8..16 {
            assert_eq!(rt; chip.write(address, u64::from(value)), Ok(()));
        }
        for (address, mask) in (8..).zip(masks) {
            assert_eq!(rt; chip.read(address), Ok(value & mask));
        }
    }
    assert_eq!(rt; chip.read(20), Ok(0));
}

#[test]
fn counters_keep_their_halves(rt: HostRuntime) {
    let mut chip = Mm58167b::new();
    let acts = [
        Act::Write(7, 0x12, Ok(())),
        Act::Write(6, 0x31, Ok(())),
        Act::Write(5, 0xf7, Ok(())),
        Act::Write(4, 0x23, Ok(())),
        Act::Write(3, 0x59, Ok(())),
        Act::Write(2, 0x58, Ok(())),
        Act::Write(1, 0x97, Ok(())),
        Act::Write(0, 0x9f, Ok(())),
        Act::Read(0, Ok(0x90)),
        Act::Read(1, Ok(0x97)),
        Act::Read(2, Ok(0x58)),
        Act::Read(3, Ok(0x59)),
        Act::Read(4, Ok(0x23)),
        Act::Read(5, Ok(0x07)),
        Act::Read(6, Ok(0x31)),
        Act::Read(7, Ok(0x12)),
    ];
    assert_eq!(rt; perform(&mut chip, &acts), Ok(()));
    let digits = [9, 7, 9, 8, 5, 9, 5, 3, 2, 7, 1, 3, 2, 1];
    for (column, digit) in (0..).zip(digits) {
        assert_eq!(rt; chip.digit(column), Ok(digit));
    }
    // 1.021 seconds to midnight, at the end of the year
    let acts = [
        Act::Wait(33_456, Ok(1_021)),
        Act::Read(0, Ok(0x00)),
        Act::Read(4, Ok(0x00)),
        Act::Read(5, Ok(0x01)),
        Act::Read(6, Ok(0x01)),
        Act::Read(7, Ok(0x01)),
    ];
    assert_eq!(rt; perform(&mut chip, &acts), Ok(()));
}

#[test]
fn refusals_come_in_order(rt: HostRuntime) {
    let mut chip = Mm58167b::new();
    let acts = [
        Act::Read(16, Err(2)),
        Act::Read(19, Err(2)),
        Act::Read(21, Err(2)),
        Act::Read(u64::MAX, Err(2)),
        Act::Write(16, 999, Err(2)),
        Act::Write(21, 0, Err(2)),
        Act::Write(20, 999, Err(3)),
        Act::Write(20, 0, Err(3)),
        Act::Write(0, 256, Err(4)),
        Act::Write(15, u64::MAX, Err(4)),
        Act::Write(2, 0x60, Err(7)),
        Act::Write(4, 0x24, Err(7)),
        Act::Write(5, 0x00, Err(7)),
        Act::Write(5, 0xf8, Err(7)),
        Act::Write(7, 0x13, Err(7)),
        Act::Write(6, 0x32, Err(7)),
        Act::Digit(14, Err(8)),
        Act::Digit(u64::MAX, Err(8)),
    ];
    assert_eq!(rt; perform(&mut chip, &acts), Ok(()));
    let acts = [
        Act::Read(2, Ok(0)),
        Act::Read(4, Ok(0)),
        Act::Read(5, Ok(1)),
        Act::Read(6, Ok(1)),
        Act::Read(7, Ok(1)),
        Act::Write(6, 0x28, Ok(())),
        Act::Write(7, 0x02, Ok(())),
        Act::Write(6, 0x29, Err(7)),
    ];
    assert_eq!(rt; perform(&mut chip, &acts), Ok(()));
}

// A step sets the status if a counter has been read since the status was; RAM is no counter.
#[test]
fn the_rollover_status(rt: HostRuntime) {
    let mut chip = Mm58167b::new();
    let acts = [
        Act::Wait(34, Ok(1)),
        Act::Read(9, Ok(0)),
        Act::Wait(34, Ok(1)),
        Act::Read(20, Ok(0)),
        Act::Read(3, Ok(0)),
        Act::Wait(20, Ok(0)),
        Act::Read(20, Ok(0)),
        Act::Wait(100, Ok(3)),
        Act::Read(20, Ok(0)),
        Act::Read(0, Ok(0x50)),
        Act::Wait(33, Ok(1)),
        Act::Write(2, 0x30, Ok(())),
        Act::Read(20, Ok(1)),
        Act::Read(20, Ok(0)),
        Act::Wait(33, Ok(1)),
        Act::Read(20, Ok(0)),
    ];
    assert_eq!(rt; perform(&mut chip, &acts), Ok(()));
}

#[test]
fn arms_and_settles(rt: HostRuntime) {
    let mut chip = Mm58167b::new();
    let acts = [
        Act::Arm,
        Act::Wait(31, Ok(0)),
        Act::Digit(0, Ok(0)),
        Act::Settle(true),
        Act::Wait(1, Ok(1)),
        Act::Digit(0, Ok(1)),
        Act::Settle(false),
        Act::Settle(true),
        Act::Wait(33, Ok(1)),
        Act::Read(20, Ok(1)),
        Act::Settle(true),
        Act::Wait(33, Ok(1)),
        Act::Settle(false),
    ];
    assert_eq!(rt; perform(&mut chip, &acts), Ok(()));
}
