// The interrupt timer. It counts the clock's steps.

mod on;

#[derive(Clone, Copy)]
pub enum Timer {
    Halted,
    // counting once, with so many steps left
    Once(u16),
    // counting again and again, with so many steps left
    Again(u16),
}

// What happens to it.
#[derive(Clone, Copy)]
pub(crate) enum Event {
    // the interrupt register is loaded
    Load,
    Halt,
    Start,
    // so many steps of the clock
    Steps(u64),
}
