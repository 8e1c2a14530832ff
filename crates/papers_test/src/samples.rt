// Papers to test on, and what their check says.
use blocks::block::BLOCK;
use blocks::check::write_check;
use blocks::fault::Figures;
use paper::check::check_paper;
use paper::header::Header;
use paper::record::{Call, Record};
use paper_writer::write::write_paper;

pub(crate) const LONGEST: usize = 51200;

pub(crate) const MOST_RECORDS: usize = 1900;

pub(crate) const TRAFFIC: Header = Header {
    buckets: 256,
    rows: 1,
    most: 8,
    rule: 2,
    kind: 2,
};

pub(crate) const REPLICAS: Header = Header {
    buckets: 2,
    rows: 1,
    most: 1,
    rule: 1,
    kind: 1,
};

pub(crate) const KEY: [u8; 13] = [1, 2, 3, 4, 5, 6, 7, 8, 9, 10, 11, 12, 13];

pub(crate) fn post(packets: u32, octets: u64) -> Record {
    Record {
        call: Call::Post,
        key: KEY,
        packets,
        octets,
    }
}

pub(crate) fn widen() -> Record {
    Record {
        call: Call::Widen,
        key: [0; 13],
        packets: 0,
        octets: 0,
    }
}

pub(crate) fn figures(number: u8, block: u8, record: u8) -> Figures {
    Figures {
        number,
        block,
        record,
    }
}

// A fault with these figures.
pub(crate) fn told(number: u8, block: u8, record: u8) -> Option<Figures> {
    Some(figures(number, block, record))
}

// The figures of the paper's fault, if it has one.
pub(crate) fn figures_of(paper: &[u8]) -> Option<Figures> {
    check_paper(paper).err().map(|fault| fault.figures())
}

// The figures of the writer's refusal, if it refuses.
pub(crate) fn figures_of_writing(
    header: Header,
    records: &[Record],
    buffer: &mut [u8],
) -> Option<Figures> {
    let written = write_paper(header, records, buffer);
    written.err().map(|fault| fault.figures())
}

// Writes the check of a block anew.
pub(crate) fn mend(paper: &mut [u8], block: usize) {
    if let Some(bytes) = paper.as_chunks_mut::<BLOCK>().0.get_mut(block) {
        write_check(bytes);
    }
}

pub(crate) fn put(paper: &mut [u8], block: usize, byte: usize, value: u8) {
    if let Some(bytes) = paper.as_chunks_mut::<BLOCK>().0.get_mut(block) {
        if let Some(place) = bytes.get_mut(byte) {
            *place = value;
        }
    }
}

// The byte of a block, or 0 where the paper has none.
pub(crate) fn byte_at(paper: &[u8], block: usize, byte: usize) -> u8 {
    let block = paper.as_chunks::<BLOCK>().0.get(block);
    block
        .and_then(|bytes| bytes.get(byte))
        .copied()
        .unwrap_or(0)
}

// The figures after one byte is changed and the block's check mended. The paper is as it was then.
pub(crate) fn figures_with(
    paper: &mut [u8],
    block: usize,
    byte: usize,
    value: u8,
) -> Option<Figures> {
    let old = byte_at(paper, block, byte);
    put(paper, block, byte, value);
    mend(paper, block);
    let figures = figures_of(paper);
    put(paper, block, byte, old);
    mend(paper, block);
    figures
}
