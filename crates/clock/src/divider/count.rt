// Steps counted in cycles.
ghost use Rattle.std.specs.Prelude.{◌≡◌, ◌+◌, ◌%◌, ◌≤◌, MatchOption};
ghost use Rattle.clock.specs.Divisors.{Greatest};
ghost use Rattle.clock.specs.Divider.{Divides, passed, counted, stepped, groups, period};
ghost use Rattle.clock.specs.Numbers.{numbers};
ghost use Rattle.clock.specs.Waits.{IsPeriod, NoCycleLost};

use crate::divider::{Divider, Waited};

// By Euclid's algorithm.
fn greatest_common_divisor(a: u32, b: u32) -> u32
    ensures { Greatest a b result }
{
    let mut x = a;
    let mut y = b;
    while y != 0 {
        let rest = x % y;
        x = y;
        y = rest;
    }
    x
}

// The fewest groups, at least one, whose passed cycles are a multiple of `k`.
fn fewest_groups(m: u32, d: u32, k: u32) -> u64
    requires { Divides (record { m = m; d = d; k = k }) }
    ensures is { result ≡ groups (record { m = m; d = d; k = k }) }
    ensures few { result ≤ k }
{
    (k / greatest_common_divisor(m - d, k)) as u64
}

impl Divider {
    // The divider of the three numbers, if some cycles pass and some of them make a step.
    pub fn new(m: u32, d: u32, k: u32) -> Option<Divider>
        ensures { MatchOption result (Divides (record { m = m; d = d; k = k }) → ⊥) (λ v. (numbers v ≡ record { m = m; d = d; k = k }) × Divides (numbers v)) }
    {
        if d >= m || k == 0 {
            return None;
        }
        let period = m as u64 * fewest_groups(m, d, k);
        Some(Divider { m, d, k, period })
    }

    // The cycles that pass of the first `cycles`.
    fn passed_of(&self, cycles: u128) -> u128
        ensures { result ≡ passed (numbers self.now) cycles }
    {
        let m = self.m as u128;
        let passing = (self.m - self.d) as u128;
        cycles / m * passing + (cycles % m).min(passing)
    }

    // The steps of the first `cycles`.
    fn counted_of(&self, cycles: u128) -> u128
        ensures { result ≡ counted (numbers self.now) cycles }
    {
        self.passed_of(cycles) / self.k as u128
    }

    // The cycles that a zeroed divider lets pass of its first `cycles`.
    pub fn passed(&self, cycles: u64) -> u64
        ensures { result ≡ passed (numbers self.now) cycles }
    {
        self.passed_of(cycles as u128) as u64
    }

    // The steps that a zeroed divider counts in `cycles`.
    pub fn counted(&self, cycles: u64) -> u64
        ensures { result ≡ counted (numbers self.now) cycles }
    {
        self.counted_of(cycles as u128) as u64
    }

    // The fewest whole groups of cycles, at least one, in which a whole number of steps is counted.
    pub fn period(&self) -> u64
        ensures value { result ≡ period (numbers self.now) }
        ensures fewest { IsPeriod (numbers self.now) result }
        ensures kept { NoCycleLost (numbers self.now) result }
    {
        self.period
    }

    // What a wait of `cycles` comes to where `held` cycles are held.
    pub fn wait(&self, held: u64, cycles: u64) -> Waited
        ensures steps { result.steps ≡ stepped (numbers self.now) held cycles }
        ensures held { result.held ≡ (held + cycles) % period (numbers self.now) }
    {
        let end = held as u128 + cycles as u128;
        let steps = self.counted_of(end) - self.counted_of(held as u128);
        Waited {
            steps: steps as u64,
            held: (end % self.period as u128) as u64,
        }
    }
}
