// The check of one block of a paper.
ghost use Rattle.std.specs.Prelude.{◌≡◌, ◌+◌, ◌*◌, ◌<◌, ◌≤◌, drop, slice_index};
ghost use Rattle.blocks.specs.Pieces.{pieces};
ghost use Rattle.paper.specs.Checks.{block_checked, count_fits, front_fits, part_fits, record_at, records_checked, zeros_checked};

use crate::header::Header;
use crate::layout::{FRONT, FULL, RECORD};
use crate::record::Record;
use crate::zeros::first_nonzero;
use blocks::block::{BLOCK, BODY};
use blocks::check::check_holds;
use blocks::fault::{BlockFault, RecordFault};

// The records of a full block, as a block counts them.
const FULL_COUNT: u8 = FULL as u8;

// Where the records of a full block end.
const RECORDS_END: usize = FRONT + RECORD * FULL;

// Whether a block has as many records as it must, by whether it is the last.
fn count_fits(last: bool, count: u8) -> bool
    ensures { result ≡ count_fits last count }
{
    if last {
        (1..=FULL_COUNT).contains(&count)
    } else {
        count == FULL_COUNT
    }
}

// Whether the header fits and is the first block's, and the count and the place are right.
#[tactic(auto, unfolding(crate::specs::Checks::front_fits))]
fn front_fits(block: &[u8; BLOCK], first: Header, place: u8, last: bool) -> bool
    ensures { result ≡ front_fits first place last block.now }
{
    let header = Header::read(block);
    header.fits() && header == first && count_fits(last, block[6]) && block[7] == place
}

// Whether 26 bytes are a record that a paper of this kind may have.
fn part_fits(part: &[u8; RECORD], kind: u8) -> bool
    ensures { result ≡ part_fits kind part.now }
{
    Record::read(part).is_some_and(|record| record.fits(kind))
}

// Checks the records that the block counts, from the first.
fn check_records(block: &[u8; BLOCK], place: u8) -> Result<(), RecordFault>
    requires { slice_index block.now 6 ≤ 19 }
    ensures { result ≡ records_checked (slice_index block.now 5) place 0 (pieces 26 (slice_index block.now 6) (drop 8 block.now)) }
{
    let kind = block[5];
    let end = FRONT + RECORD * usize::from(block[6]);
    let (parts, _) = block[FRONT..end].as_chunks::<RECORD>();
    for (i, part) in parts.iter().enumerate() {
        if !part_fits(part, kind) {
            return Err(RecordFault {
                block: place,
                record: i as u8 + 1,
            });
        }
    }
    Ok(())
}

// The place from 1 of the record in which a byte lies, or 0 behind the last, as the fault's line has it.
fn record_at(byte: usize) -> u8
    requires { byte < 504 }
    ensures { result ≡ record_at byte }
{
    if byte < RECORDS_END {
        (byte.saturating_sub(FRONT) / RECORD + 1) as u8
    } else {
        0
    }
}

// The bytes behind the records, up to the check, are zero.
fn check_zeros(block: &[u8; BLOCK], place: u8) -> Result<(), RecordFault>
    requires { slice_index block.now 6 ≤ 19 }
    ensures { result ≡ zeros_checked place (8 + 26 * slice_index block.now 6) block.now }
{
    let from = FRONT + RECORD * usize::from(block[6]);
    match first_nonzero(&block[from..BODY]) {
        None => Ok(()),
        Some(k) => Err(RecordFault {
            block: place,
            record: record_at(from + k),
        }),
    }
}

// Checks the block in a place, against the header of the first.
#[tactic(auto, unfolding(crate::specs::Checks::block_checked))]
pub(crate) fn check_block(
    block: &[u8; BLOCK],
    first: Header,
    place: u8,
    last: bool,
) -> Result<(), BlockFault>
    ensures { result ≡ block_checked first place last block.now }
{
    if !check_holds(block) {
        return Err(BlockFault::Check { block: place });
    }
    if !front_fits(block, first, place, last) {
        return Err(BlockFault::Header { block: place });
    }
    check_records(block, place)?;
    check_zeros(block, place)?;
    Ok(())
}
