ghost use Rattle.std.specs.Prelude.{◌≡◌};
ghost use Rattle.paper.specs.declared.fault.PaperFault.TheVariants.{InBlock};
ghost use Rattle.paper.specs.Faults.{figures_of};

use blocks::fault::{BlockFault, Figures};

// Why a paper is refused.
#[derive(Clone, Copy, PartialEq, Eq, Debug)]
pub enum PaperFault {
    // The paper is empty, longer than the most blocks, or not of whole blocks.
    Length,
    // A block is refused.
    InBlock(BlockFault),
}

impl PaperFault {
    // The figures by which the fault is told: the block is counted from 0, the record from 1.
    pub fn figures(self) -> Figures
        ensures { result ≡ figures_of self }
    {
        match self {
            PaperFault::Length => Figures {
                number: 13,
                block: 0,
                record: 0,
            },
            PaperFault::InBlock(fault) => fault.figures(),
        }
    }
}

impl From<BlockFault> for PaperFault {
    ghost from_gives = { λ e r. r ≡ InBlock e };

    fn from(e: BlockFault) -> PaperFault {
        PaperFault::InBlock(e)
    }
}
