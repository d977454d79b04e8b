// Refusals in words.
ghost use Rattle.std.specs.Prelude.{Some};
ghost use Rattle.chips.specs.Refusals.{words};

use crate::refusal::Refusal;
use std::fmt;

impl fmt::Display for Refusal {
    ghost output = { λ refusal. Some (words refusal) };

    fn fmt<W: fmt::Write>(&self, f: &mut fmt::Formatter<W>) -> fmt::Result {
        f.write_str(match self {
            Refusal::NoAddress => "no such address",
            Refusal::NotWritable => "not writable",
            Refusal::TooWide => "the value does not fit",
            Refusal::TooOld => "an age past 2^60 cycles",
            Refusal::TestBit => "the test bit",
            Refusal::Unlawful => "it would run with no lawful face",
            Refusal::NoColumn => "no such column",
        })
    }
}
