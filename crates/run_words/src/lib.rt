// The bits of a number as a word: what the instructions ask of u32 and of u64, as one trait with its laws over the width.
// Integers are calculated with such words, and a float is negated as one.
#![tactic(auto)]

ghost use Rattle.std.specs.Prelude.{◌≡◌, ℕ, Some, eqb};
ghost use Rattle.std.specs.Ordering.{nat_cmp};
ghost use Rattle.std.proofs.Common.{refl};
ghost use Rattle.scope.specs.Syntax.{Number, i32, i64};
ghost use Rattle.scope.specs.Integers.{int_add, int_sub, top_turned};
ghost use Rattle.run_words.specs.Words.{WordIs, NumberIs};

use run_value::Value;

// What the instructions ask of u32 and of u64.
pub trait Word: Copy + PartialOrd {
    // The width in bits, the kind of a value of this width, and what a word is as a number.
    ghost width: { ℕ };

    ghost kind: { Number };

    ghost bits: { Self → ℕ };

    // The bits of an operand, if it is of the kind.
    fn of(v: Value) -> Option<Self>
        ensures { WordIs kind bits v result };

    fn value(self) -> Value
        ensures { NumberIs kind (bits self) result };

    fn sum(self, other: Self) -> Self
        ensures { bits result ≡ int_add width (bits self) (bits other) };

    fn difference(self, other: Self) -> Self
        ensures { bits result ≡ int_sub width (bits self) (bits other) };

    // With the highest bit turned, patterns stand in the order of the signed numbers.
    fn top_turned(self) -> Self
        ensures { bits result ≡ top_turned width (bits self) };

    fn is_zero(self) -> bool
        ensures { result ≡ eqb (bits self) 0 };

    // Words are compared as the numbers that they are.
    ghost eq_law: { (a b : Self) → Self.eq a b ≡ eqb (bits a) (bits b) };

    ghost order_law: { (a b : Self) → Self.partial_cmp a b ≡ Some (nat_cmp (bits a) (bits b)) };
}

impl Word for u32 {
    ghost width = { 32 };

    ghost kind = { i32 };

    ghost bits = { λ n. n };

    fn of(v: Value) -> Option<u32> {
        match v {
            Value::I32(n) => Some(n),
            _ => None,
        }
    }

    fn value(self) -> Value {
        Value::I32(self)
    }

    #[tactic(auto, unfolding(scope::specs::Integers::int_add))]
    fn sum(self, other: u32) -> u32 {
        self.wrapping_add(other)
    }

    #[tactic(auto, unfolding(scope::specs::Integers::int_sub))]
    fn difference(self, other: u32) -> u32 {
        self.wrapping_sub(other)
    }

    fn top_turned(self) -> u32 {
        self.wrapping_add(run_value::SIGN_32)
    }

    fn is_zero(self) -> bool {
        self == 0
    }

    ghost eq_law = { λ a b. refl };

    ghost order_law = { λ a b. refl };
}

impl Word for u64 {
    ghost width = { 64 };

    ghost kind = { i64 };

    ghost bits = { λ n. n };

    fn of(v: Value) -> Option<u64> {
        match v {
            Value::I64(n) => Some(n),
            _ => None,
        }
    }

    fn value(self) -> Value {
        Value::I64(self)
    }

    #[tactic(auto, unfolding(scope::specs::Integers::int_add))]
    fn sum(self, other: u64) -> u64 {
        self.wrapping_add(other)
    }

    #[tactic(auto, unfolding(scope::specs::Integers::int_sub))]
    fn difference(self, other: u64) -> u64 {
        self.wrapping_sub(other)
    }

    fn top_turned(self) -> u64 {
        self.wrapping_add(run_value::SIGN_64)
    }

    fn is_zero(self) -> bool {
        self == 0
    }

    ghost eq_law = { λ a b. refl };

    ghost order_law = { λ a b. refl };
}
