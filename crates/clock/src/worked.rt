// Worked cases, proved of the definitions that the contracts cite.
ghost use Rattle.std.specs.Prelude.{◌≡◌};
ghost use Rattle.clock.specs.Cases.{WorkedCases};

// The days of a hundred years, after which date and year are back and the weekday is not.
pub fn worked_cases() -> u64
    ensures days { result ≡ 36525 }
    ensures cases { WorkedCases result }
{
    36_525
}
