// The worked cases, run.
use clock::calendar::Calendar;
use clock::mm58167b::Running as Running167;
use clock::mm58274c::Running;
use clock::worked::worked_cases;

#[test]
fn cycles_into_steps(rt: HostRuntime) {
    let tenths = Running::divider();
    assert_eq!(rt; tenths.counted(3_275), 0);
    assert_eq!(rt; tenths.counted(3_276), 1);
    assert_eq!(rt; tenths.counted(32_768), 10);
    assert_eq!(rt; tenths.period(), 16_384);
    assert_eq!(rt; tenths.counted(16_384), 5);
    let milliseconds = Running167::divider();
    assert_eq!(rt; milliseconds.counted(130), 3);
    assert_eq!(rt; milliseconds.counted(131), 4);
    assert_eq!(rt; milliseconds.counted(32_768), 1_000);
    assert_eq!(rt; milliseconds.period(), 4_096);
    assert_eq!(rt; milliseconds.counted(4_096), 125);
}

// The face so many steps on; none where the first is not lawful.
pub(crate) fn steps_on(face: &[u8; 15], steps: u64) -> Option<[u8; 15]> {
    let mut counters = Running::from_face(face)?;
    counters.advance(steps);
    Some(counters.face())
}

#[test]
fn single_steps(rt: HostRuntime) {
    let steps = [
        (
            [9, 9, 5, 9, 5, 3, 2, 8, 2, 2, 0, 4, 8, 3, 1],
            [0, 0, 0, 0, 0, 0, 0, 9, 2, 2, 0, 4, 8, 4, 1],
        ),
        (
            [9, 9, 5, 9, 5, 3, 2, 8, 2, 2, 0, 4, 8, 3, 5],
            [0, 0, 0, 0, 0, 0, 0, 1, 0, 3, 0, 4, 8, 4, 5],
        ),
        (
            [9, 9, 5, 9, 5, 3, 2, 1, 3, 2, 1, 9, 9, 5, 13],
            [0, 0, 0, 0, 0, 0, 0, 1, 0, 1, 0, 0, 0, 6, 1],
        ),
        (
            [9, 9, 5, 9, 5, 1, 1, 5, 1, 6, 0, 4, 8, 7, 2],
            [0, 0, 0, 0, 0, 2, 1, 6, 1, 6, 0, 4, 8, 1, 0],
        ),
        (
            [9, 9, 5, 9, 5, 2, 1, 5, 1, 6, 0, 4, 8, 7, 2],
            [0, 0, 0, 0, 0, 1, 0, 5, 1, 6, 0, 4, 8, 7, 2],
        ),
    ];
    for (before, after) in steps {
        assert_eq!(rt; steps_on(&before, 1), Some(after));
    }
}

#[test]
fn a_hundred_years(rt: HostRuntime) {
    let before = [9, 9, 5, 9, 5, 3, 2, 9, 2, 2, 0, 4, 8, 1, 1];
    let after = [9, 9, 5, 9, 5, 3, 2, 9, 2, 2, 0, 4, 8, 7, 1];
    assert_eq!(rt; steps_on(&before, worked_cases() * 864_000), Some(after));
}

#[test]
fn unlawful_faces(rt: HostRuntime) {
    // 29 February with leap count 1, hour 24, PM in 24-hour mode, hour 0 in 12-hour mode, weekday 8, a digit above 9, a column too few
    let faces = [
        [9, 9, 5, 9, 5, 3, 2, 9, 2, 2, 0, 4, 8, 1, 5],
        [9, 9, 5, 9, 5, 4, 2, 1, 2, 2, 0, 4, 8, 1, 1],
        [9, 9, 5, 9, 5, 3, 1, 1, 2, 2, 0, 4, 8, 1, 3],
        [9, 9, 5, 9, 5, 0, 0, 1, 2, 2, 0, 4, 8, 1, 0],
        [9, 9, 5, 9, 5, 3, 2, 1, 2, 2, 0, 4, 8, 8, 1],
        [10, 9, 5, 9, 5, 3, 2, 1, 2, 2, 0, 4, 8, 1, 1],
    ];
    for face in faces {
        assert!(rt; Running::from_face(&face).is_none());
    }
    assert!(rt; Running::from_face(&[9, 9, 5, 9, 5, 3, 2, 1, 2, 2, 0, 4, 8, 1]).is_none());
}

#[test]
fn unlawful_faces_without_leap_years(rt: HostRuntime) {
    // 29 February, hour 24, weekday 0, day 0, month 13, a digit above 9
    let faces = [
        [0, 0, 0, 0, 0, 0, 0, 0, 0, 1, 9, 2, 2, 0],
        [0, 0, 0, 0, 0, 0, 0, 4, 2, 1, 1, 0, 1, 0],
        [0, 0, 0, 0, 0, 0, 0, 0, 0, 0, 1, 0, 1, 0],
        [0, 0, 0, 0, 0, 0, 0, 0, 0, 1, 0, 0, 1, 0],
        [0, 0, 0, 0, 0, 0, 0, 0, 0, 1, 1, 0, 3, 1],
        [0, 10, 0, 0, 0, 0, 0, 0, 0, 1, 1, 0, 1, 0],
    ];
    for face in faces {
        assert!(rt; Running167::from_face(&face).is_none());
    }
    assert!(rt; Running167::from_face(&[0, 0, 0, 0, 0, 0, 0, 0, 0, 1, 1, 0, 1, 0]).is_some());
}
