ghost use Rattle.std.specs.Prelude.{◌≡◌, ◌*◌, true, length, is_ok, if◌then◌else◌};
ghost use Rattle.paper.specs.Writing.{blocks_for, paper_bytes};
ghost use Rattle.paper_writer.specs.Refusing.{ReadsBack, write_checked};

use crate::block::write_block;
use crate::check::check_contents;
use crate::records::Records;
use blocks::block::BLOCK;
use paper::fault::PaperFault;
use paper::header::Header;
use paper::layout::{FULL, MOST_RECORDS};
use paper::record::Record;

// Writes 19 records to a block, the rest into the last.
fn write_blocks(buffer: &mut [u8], header: Header, records: &Records<'_>)
    requires { length buffer.old ≡ 512 * blocks_for (length records.now.all.now) }
    ensures { buffer.new ≡ paper_bytes header records.now.all.now }
{
    for (i, group) in records.all.chunks(FULL).enumerate() {
        // By its place: of a buffer that `chunks_mut` lent, beside the groups by `zip`, a proof would know only the length.
        let from = BLOCK * i;
        write_block(&mut buffer[from..from + BLOCK], header, i as u8, group);
    }
}

// Fills the buffer with the paper, or names its first fault and leaves the buffer as it was.
// What is written is found sound, and has the same header and the same records.
pub fn write_paper(header: Header, records: &[Record], buffer: &mut [u8]) -> Result<(), PaperFault>
    ensures answer { result ≡ write_checked (length buffer.old) header records.now }
    ensures bytes { buffer.new ≡ (if is_ok result then paper_bytes header records.now else buffer.old) }
    ensures read_back { is_ok result ≡ true → ReadsBack buffer.new header records.now }
{
    let count = records.len();
    if count == 0 || count > MOST_RECORDS || buffer.len() != BLOCK * count.div_ceil(FULL) {
        return Err(PaperFault::Length);
    }
    let records = Records { all: records };
    check_contents(header, &records)?;
    write_blocks(buffer, header, &records);
    Ok(())
}
