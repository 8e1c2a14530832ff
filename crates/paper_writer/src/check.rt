// The checks of a header and records to be written.
ghost use Rattle.std.specs.Prelude.{◌≡◌, true, is_ok};
ghost use Rattle.std.specs.List.{AllByRecursion};
ghost use Rattle.paper.specs.Records.{Held};
ghost use Rattle.paper_writer.specs.Refusing.{contents_checked, records_checked};

use crate::records::Records;
use blocks::fault::{BlockFault, RecordFault};
use paper::header::Header;
use paper::layout::FULL;

fn check_records(records: &Records<'_>, kind: u8) -> Result<(), RecordFault>
    ensures answer { result ≡ records_checked kind 0 records.now.all.now }
    ensures held { is_ok result ≡ true → AllByRecursion Held records.now.all.now }
{
    for (k, record) in records.all.iter().enumerate() {
        if !record.fits(kind) {
            return Err(RecordFault {
                block: (k / FULL) as u8,
                record: (k % FULL + 1) as u8,
            });
        }
    }
    Ok(())
}

// Checks the header, then the records.
pub(crate) fn check_contents(header: Header, records: &Records<'_>) -> Result<(), BlockFault>
    ensures answer { result ≡ contents_checked header records.now.all.now }
    ensures held { is_ok result ≡ true → AllByRecursion Held records.now.all.now }
{
    if !header.fits() {
        return Err(BlockFault::Header { block: 0 });
    }
    check_records(records, header.kind)?;
    Ok(())
}
