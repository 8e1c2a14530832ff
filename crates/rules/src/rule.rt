ghost use Rattle.std.specs.Prelude.{◌≡◌, ℕ};
ghost use Rattle.std.specs.NonZero.{non_zero_u32_get};
ghost use Rattle.rules.specs.Rules.{Meaning, Ranged};

use std::num::NonZeroU32;

// A fingerprint rule. `meaning` is the one function that it computes, and `ranged` says that its numbers are below the range.
pub trait Rule {
    ghost meaning: { Self → Meaning };

    // The number by which papers name the rule, or 0 if they name it by none.
    ghost NUMBER: { ℕ };

    const NUMBER: u8;

    // The rule's number.
    fn rule_number() -> u8
        ensures { result ≡ NUMBER }
    {
        Self::NUMBER
    }

    // The fingerprint of a key, below the range. The rule stays as it was.
    fn fingerprint(&self, key: &[u8], range: NonZeroU32) -> u32
        ensures value { result ≡ meaning self.now key.now (non_zero_u32_get range) };

    ghost ranged: { (rule : Self) → Ranged (meaning rule) };
}
