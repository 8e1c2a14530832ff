// Where the parts of a paper's block lie.
use blocks::block::MOST_BLOCKS;

// The header, the count of records, and the block's place.
pub const FRONT: usize = 8;

// The bytes of a record.
pub const RECORD: usize = 26;

// The records of a full block.
pub const FULL: usize = 19;

// The records of the longest paper.
pub const MOST_RECORDS: usize = MOST_BLOCKS * FULL;
