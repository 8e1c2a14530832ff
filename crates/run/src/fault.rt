ghost use Rattle.std.specs.Prelude.{◌≡◌};
ghost use Rattle.run.specs.declared.fault.RunFault.TheVariants.{InPaper};
ghost use Rattle.run.specs.Faults.{figures_of};

use blocks::fault::Figures;
use paper::fault::PaperFault;

// Why a paper is not run.
#[derive(Clone, Copy, PartialEq, Eq, Debug)]
pub enum RunFault {
    // The buffer is shorter than the longest that may be printed.
    Room,
    // The paper is not sound.
    InPaper(PaperFault),
}

impl RunFault {
    // The figures by which the fault is told. Each layer's fault has a first case of its own, so each has a match of its own: a
    // trait over them would hold the same.
    pub fn figures(self) -> Figures
        ensures { result ≡ figures_of self }
    {
        match self {
            RunFault::Room => Figures {
                number: 13,
                block: 0,
                record: 0,
            },
            RunFault::InPaper(fault) => fault.figures(),
        }
    }
}

impl From<PaperFault> for RunFault {
    ghost from_gives = { λ e r. r ≡ InPaper e };

    fn from(e: PaperFault) -> RunFault {
        RunFault::InPaper(e)
    }
}
