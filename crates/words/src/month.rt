// Months in words.
ghost use Rattle.std.specs.Prelude.{◌≡◌, Some};
ghost use Rattle.words.specs.Months.{month_name};

use std::fmt;

// The month of this number, from 1 for January on.
#[derive(Clone, Copy)]
pub struct Month(pub u8);

impl Month {
    fn name(self) -> &'static str
        ensures { result.now ≡ month_name self.0 }
    {
        match self.0 {
            1 => "January",
            2 => "February",
            3 => "March",
            4 => "April",
            5 => "May",
            6 => "June",
            7 => "July",
            8 => "August",
            9 => "September",
            10 => "October",
            11 => "November",
            12 => "December",
            _ => "no month",
        }
    }
}

impl fmt::Display for Month {
    ghost output = { λ month. Some (month_name month.0) };

    fn fmt<W: fmt::Write>(&self, f: &mut fmt::Formatter<W>) -> fmt::Result {
        f.write_str(self.name())
    }
}
