// What a chip may be asked. Numbers have 64 bits, so that one that is too large is refused by the chip and not by the caller.

#[derive(Clone, Copy)]
pub enum Ask {
    // so many cycles
    Wait(u64),
    // begin to notice steps
    Arm,
    // the digit of a column
    Digit(u64),
    // tell whether no step was noticed, and begin again
    Settle,
    // the register at an address
    Read(u64),
    // tell whether an interrupt has come, and forget it
    Take,
    // an address and a value
    Write(u64, u64),
}

// What an accepted wait answers: the steps counted in it.
#[derive(Clone, Copy, PartialEq, Eq, Debug)]
pub struct Waited {
    pub steps: u64,
}
