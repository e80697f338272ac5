//! Sets of rules.

ghost use Rattle.std.specs.Prelude.{◌≡◌, ℕ, ◌==◌, ◌&&◌, ◌||◌, not, MatchOption, true, false};
ghost use Rattle.t1_rules.specs.Mask.{HasNoneAbove, IsLeastAbove, has};
ghost use Rattle.t1_rules.specs.Book.{number_of};

use crate::book::rule_of;
use crate::rule::Rule;

/// A set of rules.
#[derive(Clone, Copy, Debug, PartialEq, Eq)]
pub struct Mask {
    bits: u128,
}

/// How many bits a set has.
const BITS: u8 = 128;

impl Mask {
    /// The set without a rule.
    pub fn empty() -> Mask
        ensures { (n : ℕ) → has result n ≡ false }
    {
        Mask { bits: 0 }
    }

    /// This set, with one rule more where that is broken. A set is built from its last rule to its
    /// first. So the code reads as the rows of the rule book, in their order.
    pub fn with(self, rule: Rule, broken: bool) -> Mask
        ensures { (n : ℕ) → has result n ≡ (broken && number_of rule == n || has self n) }
    {
        if broken {
            Mask {
                bits: self.bits | (1 << rule.number()),
            }
        } else {
            self
        }
    }

    /// This set, with one rule less where that is waived.
    pub fn without(self, rule: Rule, waived: bool) -> Mask
        ensures { (n : ℕ) → has result n ≡ (has self n && not (waived && number_of rule == n)) }
    {
        if waived {
            Mask {
                bits: self.bits & !(1 << rule.number()),
            }
        } else {
            self
        }
    }

    /// The rules that are in one of the two sets.
    pub fn join(self, other: Mask) -> Mask
        ensures { (n : ℕ) → has result n ≡ (has self n || has other n) }
    {
        Mask {
            bits: self.bits | other.bits,
        }
    }

    /// Whether a rule is in the set.
    pub fn has(self, rule: Rule) -> bool
        ensures { result ≡ has self (number_of rule) }
    {
        self.bits >> rule.number() & 1 == 1
    }

    /// Whether there is no rule in the set.
    pub fn is_empty(self) -> bool
        ensures { result ≡ true → (n : ℕ) → has self n ≡ false }
    {
        self.bits == 0
    }

    /// The rule of the least number that is greater than this one.
    pub fn above(self, floor: u8) -> Option<Rule>
        ensures { MatchOption result (HasNoneAbove self floor) (λ rule. IsLeastAbove self floor rule) }
    {
        if floor >= BITS - 1 {
            return None;
        }
        let after = self.bits >> (floor + 1);
        if after == 0 {
            return None;
        }
        rule_of(floor + 1 + after.trailing_zeros() as u8)
    }
}
