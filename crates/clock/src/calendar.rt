// What the running counters of each kind do, as a trait.
ghost use Rattle.std.specs.Prelude.{◌≡◌, ℕ, ◌≤◌, List, length, slice_index, MatchOption};
ghost use Rattle.clock.specs.Divider.{Divider as Numbers, Divides};
ghost use Rattle.clock.specs.Numbers.{numbers as numbers_of};
ghost use Rattle.clock.specs.Rounds.{RoundLaw};
ghost use Rattle.clock.specs.Times.{times};

use crate::divider::Divider;

// Counters that run. They hold a lawful face, of `N` columns, at every moment.
pub trait Calendar<const N: usize>: Copy {
    ghost lawful: { List ℕ → Type 0 };

    // one count of the lowest counter
    ghost step: { List ℕ → List ℕ };

    // the steps after which a face comes back
    ghost whole_round: { ℕ };

    // the numbers of the divider that turns cycles into steps
    ghost numbers: { Numbers };

    // the face that the counters show
    ghost shown: { Self → List ℕ };

    fn divider() -> Divider
        ensures { numbers_of result ≡ numbers };

    // The counters that a face shows; none if it is not lawful.
    fn from_face(digits: &[u8]) -> Option<Self>
        ensures { MatchOption result (lawful digits.now → ⊥) (λ x. (shown x ≡ digits.now) × lawful digits.now) };

    fn face(&self) -> [u8; N]
        ensures shows { result ≡ shown self.now }
        ensures lawful { lawful result };

    // Counts so many steps in one go.
    fn advance(&mut self, steps: u64)
        ensures { shown self.new ≡ times steps step (shown self.old) };

    fn round() -> u64
        ensures value { result ≡ whole_round }
        ensures law { RoundLaw lawful step result };

    ghost divides: { Divides numbers };

    ghost columns: { (face : List ℕ) → lawful face → length face ≡ N };

    ghost four_bits: { (face : List ℕ) → lawful face → (k : ℕ) → slice_index face k ≤ 15 };
}
