// The MM58274C by bus accesses.
use crate::acts::{Act, perform};
use chips::chip::Chip;
use chips::refusal::Refusal;
use mm58274c::chip::Mm58274c;

// 28 February 84, 23:59:59, day of week 3, in 24-hour mode, leap count 0; and started.
const NIGHT: [Act; 15] = [
    Act::Write(15, 1, Ok(())),
    Act::Write(2, 9, Ok(())),
    Act::Write(3, 5, Ok(())),
    Act::Write(4, 9, Ok(())),
    Act::Write(5, 5, Ok(())),
    Act::Write(6, 3, Ok(())),
    Act::Write(7, 2, Ok(())),
    Act::Write(8, 8, Ok(())),
    Act::Write(9, 2, Ok(())),
    Act::Write(10, 2, Ok(())),
    Act::Write(11, 0, Ok(())),
    Act::Write(12, 4, Ok(())),
    Act::Write(13, 8, Ok(())),
    Act::Write(14, 3, Ok(())),
    Act::Write(0, 0, Ok(())),
];

#[test]
fn made_stopped_and_zero(rt: HostRuntime) {
    let mut chip = Mm58274c::new();
    for address in 0..16 {
        assert_eq!(rt; chip.read(address), Ok(0));
    }
    let acts = [
        Act::Wait(1 << 40, Ok(0)),
        Act::Read(0, Ok(0)),
        Act::Take(false),
    ];
    assert_eq!(rt; perform(&mut chip, &acts), Ok(()));
}

// Each register at its address, without the control register, which a read changes.
fn registers(chip: &mut Mm58274c) -> Result<[u8; 16], Refusal> {
    let mut registers = [0; 16];
    for (address, register) in (0..).zip(registers.iter_mut()).skip(1) {
        *register = chip.read(address)?;
    }
    Ok(registers)
}

// Whether a written value is kept, cut to its active bits, and no other register changes.
fn keeps(chip: &mut Mm58274c, address: usize, value: u8, mask: u8) -> Result<bool, Refusal> {
    let mut expected = registers(chip)?;
    if let Some(register) = expected.get_mut(address) {
        *register = value & mask;
    }
    chip.write(address as u64, u64::from(value))?;
    Ok(registers(chip)? == expected)
}

#[test]
fn active_bits(rt: HostRuntime) {
    for (setting, hours) in [(1, 3), (0, 1), (2, 1)] {
        let mut chip = Mm58274c::new();
        assert_eq!(rt; chip.write(15, setting), Ok(()));
        let masks = [15, 7, 15, 7, 15, hours, 15, 3, 15, 1, 15, 15, 7];
        for (address, mask) in (2..).zip(masks) {
            for value in [15, 0, 10, 5, 7, 8, 15] {
                assert_eq!(rt; keeps(&mut chip, address, value, mask), Ok(true));
            }
        }
    }
}

#[test]
fn hour_22_switched_to_12_hour_mode_reads_02(rt: HostRuntime) {
    let mut chip = Mm58274c::new();
    let acts = [
        Act::Write(15, 1, Ok(())),
        Act::Write(6, 2, Ok(())),
        Act::Write(7, 2, Ok(())),
        Act::Read(7, Ok(2)),
        Act::Write(15, 0, Ok(())),
        Act::Read(6, Ok(2)),
        Act::Read(7, Ok(0)),
        Act::Write(15, 1, Ok(())),
        Act::Read(7, Ok(0)),
    ];
    assert_eq!(rt; perform(&mut chip, &acts), Ok(()));
    let mut running = Mm58274c::new();
    assert_eq!(rt; perform(&mut running, &NIGHT), Ok(()));
    let acts = [
        Act::Write(6, 2, Ok(())),
        Act::Write(15, 2, Ok(())),
        Act::Read(6, Ok(2)),
        Act::Read(7, Ok(0)),
        Act::Read(15, Ok(2)),
    ];
    assert_eq!(rt; perform(&mut running, &acts), Ok(()));
}

#[test]
fn pm_is_stored_as_0_in_24_hour_mode(rt: HostRuntime) {
    let mut chip = Mm58274c::new();
    for (written, read) in [(3, 1), (15, 13), (2, 2), (14, 14), (7, 5)] {
        let acts = [Act::Write(15, written, Ok(())), Act::Read(15, Ok(read))];
        assert_eq!(rt; perform(&mut chip, &acts), Ok(()));
    }
}

#[test]
fn refusals_come_in_order(rt: HostRuntime) {
    let mut chip = Mm58274c::new();
    let acts = [
        Act::Read(16, Err(2)),
        Act::Read(20, Err(2)),
        Act::Read(u64::MAX, Err(2)),
        Act::Write(16, 99, Err(2)),
        Act::Write(u64::MAX, u64::MAX, Err(2)),
        Act::Write(1, 99, Err(3)),
        Act::Write(1, 0, Err(3)),
        Act::Write(0, 16, Err(4)),
        Act::Write(15, u64::MAX, Err(4)),
        Act::Write(0, 8, Err(6)),
        Act::Write(0, 12, Err(6)),
        Act::Write(0, 0, Err(7)),
        Act::Digit(15, Err(8)),
        Act::Digit(u64::MAX, Err(8)),
        Act::Write(0, 4, Ok(())),
        Act::Write(14, 8, Ok(())),
        Act::Read(14, Ok(0)),
    ];
    assert_eq!(rt; perform(&mut chip, &acts), Ok(()));
}

// A running chip takes no month 0 and no second 70, and is left as it was.
#[test]
fn a_running_chip_stays_lawful(rt: HostRuntime) {
    let mut chip = Mm58274c::new();
    assert_eq!(rt; perform(&mut chip, &NIGHT), Ok(()));
    let acts = [
        Act::Write(10, 0, Err(7)),
        Act::Write(3, 7, Err(7)),
        Act::Write(9, 3, Err(7)),
        Act::Read(10, Ok(2)),
        Act::Read(3, Ok(5)),
        Act::Read(9, Ok(2)),
        Act::Read(15, Ok(1)),
        Act::Write(8, 9, Ok(())),
        Act::Read(8, Ok(9)),
        Act::Write(15, 5, Err(7)),
        Act::Write(0, 4, Ok(())),
        Act::Write(15, 5, Ok(())),
        Act::Write(0, 0, Err(7)),
        Act::Write(8, 8, Ok(())),
        Act::Write(0, 0, Ok(())),
    ];
    assert_eq!(rt; perform(&mut chip, &acts), Ok(()));
}

#[test]
fn midnight_by_the_bus(rt: HostRuntime) {
    let mut chip = Mm58274c::new();
    assert_eq!(rt; perform(&mut chip, &NIGHT), Ok(()));
    let acts = [
        Act::Wait(3_275, Ok(0)),
        Act::Wait(1, Ok(1)),
        Act::Read(1, Ok(1)),
        Act::Wait(32_768 - 3_276, Ok(9)),
        Act::Read(8, Ok(9)),
        Act::Read(6, Ok(0)),
        Act::Read(14, Ok(4)),
        Act::Digit(7, Ok(9)),
        Act::Digit(14, Ok(1)),
    ];
    assert_eq!(rt; perform(&mut chip, &acts), Ok(()));
}

// The data-changed flag is bit 3: a step sets it, a read clears it, and a write leaves it.
#[test]
fn the_data_changed_flag(rt: HostRuntime) {
    let mut chip = Mm58274c::new();
    assert_eq!(rt; perform(&mut chip, &NIGHT), Ok(()));
    let acts = [
        Act::Read(0, Ok(0)),
        Act::Wait(3_276, Ok(1)),
        Act::Write(2, 0, Ok(())),
        Act::Write(0, 0, Ok(())),
        Act::Write(0, 4, Ok(())),
        Act::Read(0, Ok(8)),
        Act::Read(0, Ok(0)),
        Act::Wait(1 << 20, Ok(0)),
        Act::Read(0, Ok(0)),
    ];
    assert_eq!(rt; perform(&mut chip, &acts), Ok(()));
}

#[test]
fn a_stop_zeroes_tenths_and_divider(rt: HostRuntime) {
    let mut chip = Mm58274c::new();
    assert_eq!(rt; perform(&mut chip, &NIGHT), Ok(()));
    let acts = [
        Act::Wait(3 * 3_277, Ok(3)),
        Act::Read(1, Ok(3)),
        Act::Write(0, 4, Ok(())),
        Act::Read(1, Ok(0)),
        Act::Read(2, Ok(9)),
        Act::Write(0, 0, Ok(())),
        Act::Wait(3_275, Ok(0)),
        Act::Wait(1, Ok(1)),
    ];
    assert_eq!(rt; perform(&mut chip, &acts), Ok(()));
}

// Armed, a step is noticed; a plain read of the control register leaves the chip unarmed.
#[test]
fn arms_and_settles(rt: HostRuntime) {
    let mut chip = Mm58274c::new();
    assert_eq!(rt; perform(&mut chip, &NIGHT), Ok(()));
    let acts = [
        Act::Arm,
        Act::Wait(3_275, Ok(0)),
        Act::Settle(true),
        Act::Wait(1, Ok(1)),
        Act::Digit(0, Ok(1)),
        Act::Settle(false),
        Act::Settle(true),
        Act::Wait(3_277, Ok(1)),
        Act::Read(0, Ok(8)),
        Act::Settle(true),
    ];
    assert_eq!(rt; perform(&mut chip, &acts), Ok(()));
}
