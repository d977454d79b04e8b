// Why a call is refused. `specs/Refusals.antt` has each refusal's number and the question that it says no to.

use std::error::Error;

mod number;
mod words;

#[derive(Clone, Copy, PartialEq, Eq, Debug)]
pub enum Refusal {
    NoAddress,
    NotWritable,
    TooWide,
    TooOld,
    TestBit,
    Unlawful,
    NoColumn,
}

impl Error for Refusal {}
