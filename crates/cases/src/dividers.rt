// Dividers against one that takes cycle by cycle.
use clock::calendar::Calendar;
use clock::divider::Divider;
use clock::mm58274c::Running;

// Of every `m` cycles it drops the last `d`, and it divides the rest by `k`.
#[derive(Clone, Copy)]
struct Numbers {
    m: u32,
    d: u32,
    k: u32,
}

// The cycles of the group so far, and the passed cycles since the last step.
#[derive(Clone, Copy)]
struct Plain {
    numbers: Numbers,
    in_group: u32,
    passed: u32,
}

impl Plain {
    fn new(numbers: Numbers) -> Plain {
        Plain {
            numbers,
            in_group: 0,
            passed: 0,
        }
    }

    // One cycle, and whether it brings a step.
    fn cycle(&mut self) -> bool {
        let Numbers { m, d, k } = self.numbers;
        let passes = self.in_group < m.saturating_sub(d);
        self.in_group = self.in_group.wrapping_add(1);
        if self.in_group == m {
            self.in_group = 0;
        }
        if !passes {
            return false;
        }
        self.passed = self.passed.wrapping_add(1);
        if self.passed == k {
            self.passed = 0;
            return true;
        }
        false
    }
}

// Whether the first `cycles` are counted alike, one by one and by a wait of one cycle after another.
fn agrees(numbers: Numbers, cycles: u64) -> Option<bool> {
    let Numbers { m, d, k } = numbers;
    let divider = Divider::new(m, d, k)?;
    let mut plain = Plain::new(numbers);
    let mut steps = 0u64;
    let mut held = 0;
    for before in 0..cycles {
        let step = u64::from(plain.cycle());
        let waited = divider.wait(held, 1);
        held = waited.held;
        steps = steps.wrapping_add(step);
        if waited.steps != step || divider.counted(before + 1) != steps {
            return Some(false);
        }
    }
    Some(true)
}

#[test]
fn cycle_by_cycle(rt: HostRuntime) {
    for (m, d, k) in [
        (16, 1, 3072),
        (128, 3, 32),
        (1, 0, 1),
        (1, 0, 7),
        (5, 4, 3),
        (7, 2, 10),
        (12, 5, 14),
    ] {
        assert_eq!(rt;
            agrees(Numbers { m, d, k }, 40_000),
            Some(true),
            "of {m}, {d}, {k}"
        );
    }
}

#[test]
fn periods(rt: HostRuntime) {
    for ((m, d, k), period) in [
        ((16, 1, 3072), Some(16_384)),
        ((128, 3, 32), Some(4_096)),
        ((1, 0, 1), Some(1)),
        ((5, 4, 3), Some(15)),
        ((12, 5, 14), Some(24)),
        (
            (u32::MAX, 0, u32::MAX - 1),
            Some(18_446_744_060_824_649_730),
        ),
        ((16, 16, 3072), None),
        ((0, 0, 1), None),
        ((16, 1, 0), None),
    ] {
        let divider = Divider::new(m, d, k);
        assert_eq!(rt;
            divider.map(|divider| divider.period()),
            period,
            "of {m}, {d}, {k}"
        );
    }
}

// A sum of held and waited cycles past 64 bits is no trouble.
#[test]
fn longest_wait(rt: HostRuntime) {
    let waited = Running::divider().wait(u64::MAX, u64::MAX);
    assert_eq!(rt; waited.held, 16_382);
    assert_eq!(rt; waited.steps, 5_629_499_534_213_119);
}
