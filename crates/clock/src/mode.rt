// How the hours are counted: 1 to 12 with AM and PM, or 0 to 23.

mod bit;

#[derive(Clone, Copy, PartialEq, Eq)]
pub enum HourMode {
    Twelve,
    TwentyFour,
}
