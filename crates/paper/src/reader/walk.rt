ghost use Rattle.std.specs.Prelude.{◌≡◌, true, is_ok};
ghost use Rattle.std.specs.Iterator.{YieldsFirst, item_count};
ghost use Rattle.paper.specs.Checks.{paper_checked};
ghost use Rattle.paper.specs.Reading.{paper_records};
ghost use Rattle.paper.specs.Walking.{records_left};

use super::Reader;
use crate::layout::{FRONT, RECORD};
use crate::record::Record;
use blocks::block::{BLOCK, BODY};

impl<'a> Reader<'a> {
    // A cursor at the first record of a paper that was found sound.
    pub fn new(paper: &'a [u8]) -> Reader<'a>
        requires { is_ok (paper_checked paper.now) ≡ true }
        ensures { records_left result ≡ paper_records paper.now }
    {
        Reader {
            paper,
            block: 0,
            record: 0,
        }
    }
}

impl<'a> Iterator for Reader<'a> {
    type Item = Record;

    ghost next_gives = { YieldsFirst records_left };

    ghost remaining = { item_count records_left };

    // The next record, if there is one, and a step behind it.
    fn next(&mut self) -> Option<Record> {
        let (blocks, _) = self.paper.as_chunks::<BLOCK>();
        let block = blocks.get(self.block)?;
        let (parts, _) = block[FRONT..BODY].as_chunks::<RECORD>();
        let found = Record::read(&parts[self.record]);
        if self.record + 1 < usize::from(block[6]) {
            self.record += 1;
        } else {
            self.record = 0;
            self.block += 1;
        }
        found
    }
}
