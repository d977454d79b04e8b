// What is written to the control register.

mod bits;

#[derive(Clone, Copy)]
pub(crate) struct Control {
    // the clock stops
    pub stop: bool,
    // address 15 is the interrupt register
    pub select: bool,
    // the timer halts
    pub halt: bool,
}
