// The weights that a values table gives: a value that it rules out weighs nothing, every other weighs one.
ghost use Rattle.std.specs.Prelude.{◌≡◌, ℕ, ◌<◌, ◌≤◌, length, if◌then◌else◌, nat_eq, slice_index, slice_index_or};

use sweeps::semiring::Semiring;

// The weights of both values for as many options as the table has: 1 rules out 0, and 0 rules out 1.
pub(crate) fn value_weights<S: Semiring + Copy>(values: &[u8]) -> ([S; 128], [S; 128])
    requires { length values.now ≤ 128 }
    ensures lows { (o : ℕ) (d : S) → o < length values.now → slice_index_or result.0 o d ≡ (if nat_eq (slice_index values.now o) 1 then S.operations.zero else S.operations.one) }
    ensures highs { (o : ℕ) (d : S) → o < length values.now → slice_index_or result.1 o d ≡ (if nat_eq (slice_index values.now o) 0 then S.operations.zero else S.operations.one) }
{
    let mut low = [S::one(); 128];
    let mut high = [S::one(); 128];
    for (o, value) in values.iter().enumerate() {
        low[o] = if *value == 1 { S::zero() } else { S::one() };
        high[o] = if *value == 0 { S::zero() } else { S::one() };
    }
    (low, high)
}
