// A chip taken through a table of calls, each with the answer that it must give.
use chips::chip::Chip;

// What is answered, or the number of the refusal.
type Answer<T> = Result<T, u8>;

#[derive(Clone, Copy)]
pub(crate) enum Act {
    // so many cycles, and the steps counted
    Wait(u64, Answer<u64>),
    // an address, and the value read
    Read(u64, Answer<u8>),
    // an address and a value
    Write(u64, u64, Answer<()>),
    // whether there was a ring
    Take(bool),
    Arm,
    // a column, and its digit
    Digit(u64, Answer<u8>),
    // whether no step came
    Settle(bool),
}

// The place in the table of the first call that answers otherwise.
#[derive(Clone, Copy, PartialEq, Eq, Debug)]
pub(crate) struct WrongAt(usize);

fn is_right<C: Chip>(chip: &mut C, act: Act) -> bool {
    match act {
        Act::Wait(cycles, answer) => {
            let waited = chip.wait(cycles);
            waited.map(|waited| waited.steps).map_err(u8::from) == answer
        }
        Act::Read(address, answer) => chip.read(address).map_err(u8::from) == answer,
        Act::Write(address, value, answer) => {
            chip.write(address, value).map_err(u8::from) == answer
        }
        Act::Take(rang) => chip.take() == rang,
        Act::Arm => {
            chip.arm();
            true
        }
        Act::Digit(column, answer) => chip.digit(column).map_err(u8::from) == answer,
        Act::Settle(quiet) => chip.settle() == quiet,
    }
}

pub(crate) fn perform<C: Chip>(chip: &mut C, acts: &[Act]) -> Result<(), WrongAt> {
    match acts.iter().position(|act| !is_right(chip, *act)) {
        Some(place) => Err(WrongAt(place)),
        None => Ok(()),
    }
}
