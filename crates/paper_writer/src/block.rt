// One block of a paper, written into a lent part of the buffer. A block and a record stay slices: as an array, each would be
// cut by its place and then turned by `as_mut_array`, and its contract would have to say its length after the write. That is
// no plainer.
ghost use Rattle.std.specs.Prelude.{◌≡◌, ◌≤◌, [], ◌∷◌, ◌++◌, length};
ghost use Rattle.paper.specs.Headers.{header_bytes};
ghost use Rattle.paper.specs.Records.{record_bytes};
ghost use Rattle.paper.specs.Writing.{block_bytes};

use blocks::block::BODY;
use blocks::check::write_check;
use numbers::little_endian::write;
use paper::header::Header;
use paper::layout::{FRONT, RECORD};
use paper::record::Record;

// Writes bytes 0 to 7 of a block.
fn write_front(part: &mut [u8; FRONT], header: Header, count: u8, place: u8)
    ensures { part.new ≡ header_bytes header ++ (count ∷ place ∷ []) }
{
    let [low, high] = header.buckets.to_le_bytes();
    *part = [
        low,
        high,
        header.rows,
        header.most,
        header.rule,
        header.kind,
        count,
        place,
    ];
}

// Writes the 26 bytes of a record.
fn write_record(part: &mut [u8], entry: &Record)
    requires { length part.old ≡ 26 }
    ensures { part.new ≡ record_bytes entry.now }
{
    part[0] = entry.call.code();
    part[1..14].copy_from_slice(&entry.key);
    write(part, 14, entry.packets);
    write(part, 18, entry.octets);
}

// Writes all bytes of a block.
pub(crate) fn write_block(block: &mut [u8], header: Header, place: u8, records: &[Record])
    requires { (length block.old ≡ 512) × (length records.now ≤ 19) }
    ensures { block.new ≡ block_bytes header place records.now }
{
    write_front(
        block.first_chunk_mut().unwrap(),
        header,
        records.len() as u8,
        place,
    );
    for (i, record) in records.iter().enumerate() {
        // By its place: of a block that `chunks_mut` lent, beside the records by `zip`, a proof would know only the length.
        let from = FRONT + RECORD * i;
        write_record(&mut block[from..from + RECORD], record);
    }
    block[FRONT + RECORD * records.len()..BODY].fill(0);
    write_check(block);
}
