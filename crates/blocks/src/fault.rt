ghost use Rattle.std.specs.Prelude.{◌≡◌};
ghost use Rattle.blocks.specs.Faults.{figures_of};
ghost use Rattle.blocks.specs.declared.fault.BlockFault.TheVariants.{Record};

// An unfit record: its block, from 0, and its place in the block, from 1, or 0 for the bytes behind the last record. That 0 is
// the number which the fault's line has: an Option would only be turned back into it.
#[derive(Clone, Copy, PartialEq, Eq, Debug)]
pub struct RecordFault {
    pub block: u8,
    pub record: u8,
}

// Why a block is refused, with its place from 0.
#[derive(Clone, Copy, PartialEq, Eq, Debug)]
pub enum BlockFault {
    // The check is not that of the bytes before it.
    Check { block: u8 },
    Header { block: u8 },
    // A record is unfit, or a byte should be zero and is not.
    Record(RecordFault),
}

// How a fault is told: its number, the block, and the record, or 0 where none is meant.
#[derive(Clone, Copy, PartialEq, Eq, Debug)]
pub struct Figures {
    pub number: u8,
    pub block: u8,
    pub record: u8,
}

impl BlockFault {
    // The figures by which the fault is told.
    pub fn figures(self) -> Figures
        ensures { result ≡ figures_of self }
    {
        match self {
            BlockFault::Check { block } => Figures {
                number: 14,
                block,
                record: 0,
            },
            BlockFault::Header { block } => Figures {
                number: 15,
                block,
                record: 0,
            },
            BlockFault::Record(RecordFault { block, record }) => Figures {
                number: 16,
                block,
                record,
            },
        }
    }
}

impl From<RecordFault> for BlockFault {
    ghost from_gives = { λ e r. r ≡ Record e };

    fn from(e: RecordFault) -> BlockFault {
        BlockFault::Record(e)
    }
}
