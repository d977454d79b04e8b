// Numbers, counts and months in words.
#![tactic(auto)]

ghost use Rattle.std.specs.Prelude.{Some};
ghost use Rattle.words.specs.Groups.{grouped, several};

use std::fmt;

pub mod month;

// A number with a comma before each three digits.
#[derive(Clone, Copy)]
pub struct Grouped(pub u64);

impl fmt::Display for Grouped {
    ghost output = { λ n. Some (grouped n.0) };

    #[tactic(auto, using(crate::proofs::Groups::short, crate::proofs::Groups::long))]
    fn fmt<W: fmt::Write>(&self, f: &mut fmt::Formatter<W>) -> fmt::Result {
        let Grouped(number) = *self;
        if number < 1000 {
            write!(f, "{number}")
        } else {
            Grouped(number / 1000).fmt(f)?;
            write!(
                f,
                ",{}{}{}",
                number / 100 % 10,
                number / 10 % 10,
                number % 10
            )
        }
    }
}

// So many of something, in the singular where it is one.
#[derive(Clone, Copy)]
pub struct Several<'a>(pub u64, pub &'a str);

impl fmt::Display for Several<'_> {
    ghost output = { λ s. Some (several s.0 s.1.now) };

    fn fmt<W: fmt::Write>(&self, f: &mut fmt::Formatter<W>) -> fmt::Result {
        let Several(count, of) = *self;
        let ending = if count == 1 { "" } else { "s" };
        write!(f, "{} {of}{ending}", Grouped(count))
    }
}
