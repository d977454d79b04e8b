// What turns cycles into steps. A cycle is one period of the crystal, a step one count of the chip's lowest counter.
ghost use Rattle.std.specs.Prelude.{◌≡◌, ◌<◌, ◌≤◌};
ghost use Rattle.clock.specs.Divider.{period as period_of};

mod count;

// The cycles that the crystal makes in a second.
pub const SECOND: u64 = 32_768;
// and in a day
pub const DAY: u64 = 24 * 60 * 60 * SECOND;

// Of every `m` cycles it drops the last `d`, and it divides the rest by `k`.
#[derive(Clone, Copy)]
pub struct Divider {
    // the cycles of a group
    pub(crate) m: u32,
    // the cycles at the end of a group that do not count
    pub(crate) d: u32,
    // the passed cycles of a step
    pub(crate) k: u32,
    // the cycles after which it stands as it stood
    pub(crate) period: u64,
    ghost passes: { d < m },
    ghost counts: { 1 ≤ k },
    ghost repeats: { period ≡ period_of (record { m = m; d = d; k = k }) },
}

// What a wait comes to: the steps counted in it, and the cycles held after it.
#[derive(Clone, Copy, PartialEq, Eq)]
pub struct Waited {
    pub steps: u64,
    pub held: u64,
}
