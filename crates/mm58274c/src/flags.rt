// The flags, which steps set and reads clear.

#[derive(Clone, Copy)]
pub struct Flags {
    // the data-changed flag: a step has come since the control register was read
    pub changed: bool,
    // the interrupt flag
    pub rang: bool,
    // a ring that arming or settling cleared
    pub kept: bool,
}
