// Refusals in words.
use chips::refusal::Refusal;
use std::fmt;

// What follows an access that was refused; nothing where it was not.
#[derive(Clone, Copy)]
pub struct Refused(pub Option<Refusal>);

impl fmt::Display for Refused {
    fn fmt<W: fmt::Write>(&self, f: &mut fmt::Formatter<W>) -> fmt::Result {
        match self.0 {
            Some(refusal) => write!(f, "; refused with {}, {refusal}", u8::from(refusal)),
            None => Ok(()),
        }
    }
}
