// What a sweep computes with: a sum and a product that keep the laws of a semiring.
// The base has yes/no (is there a build?) and numbers modulo 2^64 (how many are there?); a third one needs no change to column or sweep.
ghost use Rattle.std.specs.Prelude.{◌≡◌, true, false, ◌&&◌, ◌||◌};
ghost use Rattle.diagram_theory.specs.Semirings.{Laws};
ghost use Rattle.diagram_theory.specs.Models.{or_and, modular, any_bool, below_64, sum_64, product_64};
ghost use Rattle.sweeps.specs.Weighing.{Operations};

pub trait Semiring {
    // the values that the carrier can hold
    ghost valid: { Self → Type 0 };

    // zero, one, sum and product
    ghost operations: { Operations Self };

    ghost laws: { Laws valid operations.zero operations.one operations.plus operations.times };

    // The sum of nothing, which absorbs every product.
    fn zero() -> Self
        ensures { result ≡ operations.zero };

    // The product of nothing.
    fn one() -> Self
        ensures { result ≡ operations.one };

    fn add(self, other: Self) -> Self
        ensures { result ≡ operations.plus self other };

    fn mul(self, other: Self) -> Self
        ensures { result ≡ operations.times self other };
}

// Yes and no: or, and.
impl Semiring for bool {
    ghost valid = { any_bool };

    ghost operations = { record { zero = false; one = true; plus = ◌||◌; times = ◌&&◌ } };

    ghost laws = { or_and };

    fn zero() -> bool {
        false
    }

    fn one() -> bool {
        true
    }

    fn add(self, other: bool) -> bool {
        self | other
    }

    fn mul(self, other: bool) -> bool {
        self & other
    }
}

// Numbers modulo 2^64.
impl Semiring for u64 {
    ghost valid = { below_64 };

    ghost operations = { record { zero = 0; one = 1; plus = sum_64; times = product_64 } };

    ghost laws = { modular };

    fn zero() -> u64 {
        0
    }

    fn one() -> u64 {
        1
    }

    fn add(self, other: u64) -> u64 {
        self.wrapping_add(other)
    }

    fn mul(self, other: u64) -> u64 {
        self.wrapping_mul(other)
    }
}
