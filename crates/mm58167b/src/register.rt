// What an address means.
ghost use Rattle.std.specs.Prelude.{◌≤◌};

mod address;

// Which of eight bytes.
#[derive(Clone, Copy)]
pub(crate) struct Place {
    pub index: usize,
    ghost within: { index ≤ 7 },
}

#[derive(Clone, Copy)]
pub(crate) enum Register {
    Counter(Place),
    Ram(Place),
    // the rollover status
    Status,
}
