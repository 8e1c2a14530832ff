ghost use Rattle.rules.specs.Rules.{fnv_number, fnv_rule};
ghost use Rattle.std.proofs.Common.{rules};

use crate::rule::Rule;
use numbers::fnv::fnv1a;
use std::num::NonZeroU32;

// The 64-bit FNV-1a number of the key's bytes, by its remainder.
#[derive(Clone, Copy)]
pub struct Fnv;

impl Rule for Fnv {
    ghost meaning = { λ _. fnv_rule };

    ghost NUMBER = { fnv_number };

    const NUMBER: u8 = 2;

    ghost ranged = { Prim.search rules };

    fn fingerprint(&self, key: &[u8], range: NonZeroU32) -> u32 {
        (fnv1a(key) % u64::from(range.get())) as u32
    }
}
