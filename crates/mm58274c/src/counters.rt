// The counters: while they run they hold a lawful face, while they are stopped any digits.

use chips::digits::Digits;
use clock::mm58274c::Running;
use clock::ticking::Ticking;

mod access;
mod wait;

#[derive(Clone, Copy)]
pub enum Counters {
    // fifteen digits: addresses 1 to 14, and the setting register
    Stopped(Digits<15>),
    Running(Ticking<Running, 15>),
}
