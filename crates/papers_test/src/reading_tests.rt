use crate::samples::{LONGEST, MOST_RECORDS, TRAFFIC, figures_of_writing, post, widen};
use paper::check::check_paper;
use paper::fault::PaperFault;
use paper::reader::Reader;

// How many records the paper has, and all their octets.
fn totals(paper: &[u8]) -> Result<(u64, u64), PaperFault> {
    check_paper(paper)?;
    Ok(Reader::new(paper).fold((0_u64, 0_u64), |(records, octets), record| {
        (records.wrapping_add(1), octets.wrapping_add(record.octets))
    }))
}

#[test]
fn every_record_is_read_once(rt: HostRuntime) {
    let mut paper = [0; LONGEST];
    assert_eq!(rt;
        figures_of_writing(TRAFFIC, &[post(1, 9); MOST_RECORDS], &mut paper),
        None
    );
    assert_eq!(rt; totals(&paper), Ok((1900, 17100)));
}
