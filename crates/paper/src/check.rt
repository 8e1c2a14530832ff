// The check of a whole paper.
ghost use Rattle.std.specs.Prelude.{◌≡◌};
ghost use Rattle.paper.specs.Checks.{paper_checked};
ghost use Rattle.paper.specs.Writing.{WritesBack};

use crate::block::check_block;
use crate::fault::PaperFault;
use crate::header::Header;
use blocks::block::{BLOCK, count_blocks};

// The paper's header, or its first fault. A sound paper is the very bytes that are written of its header and its records.
pub fn check_paper(paper: &[u8]) -> Result<Header, PaperFault>
    ensures answer { result ≡ paper_checked paper.now }
    ensures written_back { WritesBack paper.now result }
{
    let Some(blocks) = count_blocks(paper) else {
        return Err(PaperFault::Length);
    };
    let header = Header::read(paper);
    let (parts, _) = paper.as_chunks::<BLOCK>();
    for (i, block) in parts.iter().enumerate() {
        check_block(block, header, i as u8, i + 1 == blocks)?;
    }
    Ok(header)
}
