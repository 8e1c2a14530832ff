// The check of a block: the FNV-1a number of bytes 0 to 503, in bytes 504 to 511. A block is a slice here, so that a part of a
// longer paper may be lent as it is; an array is lent as a slice.
ghost use Rattle.std.specs.Prelude.{◌≡◌, length, take};
ghost use Rattle.blocks.specs.Blocks.{check_holds, with_check};

use crate::block::BODY;
use numbers::fnv::fnv1a;
use numbers::little_endian::{read, write};

#[tactic(auto, unfolding(crate::specs::Blocks::check_holds))]
pub fn check_holds(block: &[u8]) -> bool
    requires { length block.now ≡ 512 }
    ensures { result ≡ check_holds block.now }
{
    fnv1a(&block[0..BODY]) == read(block, BODY)
}

// Writes the check of the bytes before it.
pub fn write_check(block: &mut [u8])
    requires { length block.old ≡ 512 }
    ensures { block.new ≡ with_check (take 504 block.old) }
{
    let check = fnv1a(&block[0..BODY]);
    write(block, BODY, check);
}
