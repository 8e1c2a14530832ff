ghost use Rattle.tallies.specs.Replicas.{replicas_kind, replicas_number};
ghost use Rattle.std.proofs.Common.{rules};

use crate::tally::Tally;

// A count of replicas.
#[derive(Clone, Copy, PartialEq, Eq, Debug)]
pub struct Replicas(pub u32);

impl Tally for Replicas {
    ghost kind = { replicas_kind };

    ghost NUMBER = { replicas_number };

    const NUMBER: u8 = 1;

    ghost lawful = { Prim.search rules };

    fn empty() -> Replicas {
        Replicas(0)
    }

    fn is_empty(&self) -> bool {
        self.0 == 0
    }

    fn is_amount(&self) -> bool {
        self.0 > 0
    }

    fn join(&self, amount: &Replicas) -> Option<Replicas> {
        self.0.checked_add(amount.0).map(Replicas)
    }

    fn take_back(&self, amount: &Replicas) -> Option<Replicas> {
        self.0.checked_sub(amount.0).map(Replicas)
    }
}
