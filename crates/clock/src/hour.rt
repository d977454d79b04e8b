// The hour of the day, as its mode shows it.
ghost use Rattle.std.specs.Prelude.{◌≤◌};
ghost use Rattle.clock.specs.Mm58274c.{first_hour, top_hour};
ghost use Rattle.clock.specs.Hours.{hours, mode24};

mod later;
mod parts;

#[derive(Clone, Copy)]
pub enum Hour {
    Am(u8),
    Pm(u8),
    // in 24-hour mode
    TwentyFour(u8),
}

#[derive(Clone, Copy)]
pub struct HourOfDay {
    pub hour: Hour,
    ghost shown: { (first_hour (mode24 hour) ≤ hours hour) × (hours hour ≤ top_hour (mode24 hour)) },
}
