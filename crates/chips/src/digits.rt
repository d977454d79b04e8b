// Digits as registers hold them.
ghost use Rattle.std.specs.Prelude.{◌≡◌, ℕ, ◌%◌, ◌<◌, ◌≤◌, length, MatchResult, slice_index, slice_set};
ghost use Rattle.chips.specs.declared.refusal.Refusal.TheVariants.{NoColumn, Unlawful};

use crate::refusal::Refusal;
use clock::calendar::Calendar;

// Digits of four bits, one a column, lowest first.
#[derive(Clone, Copy)]
pub struct Digits<const N: usize> {
    pub columns: [u8; N],
    ghost long: { length columns ≡ N },
    ghost small: { ((k : ℕ) → slice_index columns k ≤ 15) },
}

impl<const N: usize> Digits<N> {
    // The face that running counters show.
    pub fn shown<C: Calendar<N>>(counters: &C) -> Digits<N>
        ensures { result.columns ≡ C.shown counters.now }
    {
        Digits {
            columns: counters.face(),
        }
    }

    // The counters that show these digits, if they are a lawful face.
    pub fn counters<C: Calendar<N>>(&self) -> Result<C, Refusal>
        ensures { MatchResult result (λ c. (C.shown c ≡ self.now.columns) × C.lawful self.now.columns) (λ e. (e ≡ Unlawful) × (C.lawful self.now.columns → ⊥)) }
    {
        C::from_face(&self.columns).ok_or(Refusal::Unlawful)
    }

    // The digit of a column.
    pub fn digit(&self, column: u64) -> Result<u8, Refusal>
        ensures { MatchResult result (λ digit. (digit ≡ slice_index self.now.columns column) × (column < N)) (λ e. (e ≡ NoColumn) × (column < N → ⊥)) }
    {
        if column >= N as u64 {
            return Err(Refusal::NoColumn);
        }
        Ok(self.columns[column as usize])
    }

    // These digits with one written, of which four bits are kept. Past the last column nothing is written.
    pub fn with(self, column: usize, digit: u8) -> Digits<N>
        ensures { result.columns ≡ slice_set self.entry.columns column (digit % 16) }
    {
        if column >= N {
            return self;
        }
        let mut columns = self.columns;
        columns[column] = digit & 15;
        Digits { columns }
    }
}
