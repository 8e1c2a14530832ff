ghost use Rattle.std.specs.Prelude.{◌≡◌, take};
ghost use Rattle.numbers.specs.LittleEndian.{number};
ghost use Rattle.rules.specs.Rules.{plain_number, plain_rule};
ghost use Rattle.std.proofs.Common.{rules};

use crate::rule::Rule;
use numbers::little_endian::read;
use std::num::NonZeroU32;

// The number in the key's first eight bytes, or all if fewer, least byte first, by its remainder.
#[derive(Clone, Copy)]
pub struct PlainNumber;

impl Rule for PlainNumber {
    ghost meaning = { λ _. plain_rule };

    ghost NUMBER = { plain_number };

    const NUMBER: u8 = 1;

    ghost ranged = { Prim.search rules };

    fn fingerprint(&self, key: &[u8], range: NonZeroU32) -> u32 {
        (first_number(key) % u64::from(range.get())) as u32
    }
}

// The number in the first eight bytes, or in all if fewer. A short key is gone through by a loop: copied over zeros, its bytes would
// need `memcpy` from outside.
fn first_number(key: &[u8]) -> u64
    ensures { result ≡ number (take 8 key.now) }
{
    if key.len() >= 8 {
        return read(key, 0);
    }
    let mut number: u64 = 0;
    for i in (0..key.len()).rev() {
        number = number * 256 + u64::from(key[i]);
    }
    number
}
