// An MM58167B. It always runs.
ghost use Rattle.std.specs.Prelude.{◌≡◌, true};

use chips::age::Age;
use chips::calls::Calls;
use chips::digits::Digits;
use clock::mm58167b::Running;
use clock::ticking::Ticking;

mod access;
mod made;
mod rules;

#[derive(Clone, Copy)]
pub struct Mm58167b {
    clock: Ticking<Running, 14>,
    // in the counters' layout
    ram: Digits<14>,
    // the rollover status
    status: bool,
    // a counter has been read since the status was
    seen: bool,
    armed: bool,
    age: Age,
    calls: Calls,
    ghost watched: { (armed ≡ true → seen ≡ true) },
}
