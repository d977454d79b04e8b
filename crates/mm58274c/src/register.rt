// What an address means.
ghost use Rattle.std.specs.Prelude.{◌≤◌};

mod address;

// A column of a digit that can be written.
#[derive(Clone, Copy)]
pub(crate) struct Column {
    pub index: usize,
    ghost digit: { (1 ≤ index) × (index ≤ 13) },
}

#[derive(Clone, Copy)]
pub(crate) enum Register {
    Control,
    Tenths,
    Digit(Column),
    // the setting register, or the interrupt register
    Selected,
}
