// A counter from 0 that comes round.
ghost use Rattle.std.specs.Prelude.{◌≡◌, ◌+◌, ◌/◌, ◌%◌, ◌<◌};

// The counter after `steps` counts, and how often it carried.
pub(crate) fn turned(value: u8, places: u8, steps: u64) -> (u8, u64)
    requires { value < places }
    ensures { (result.0 ≡ (value + steps) % places) × (result.1 ≡ (value + steps) / places) }
{
    let places = places as u64;
    let sum = value as u64 + steps % places;
    ((sum % places) as u8, steps / places + sum / places)
}
