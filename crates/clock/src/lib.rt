// How the clock chips count: cycles into steps, and steps into the faces they show.
#![tactic(auto)]

pub mod calendar;
mod counter;
pub mod date;
mod digits;
pub mod divider;
pub mod hour;
pub mod mm58167b;
pub mod mm58274c;
pub mod mode;
mod month;
pub mod month_day;
mod setting;
pub mod ticking;
pub mod worked;
