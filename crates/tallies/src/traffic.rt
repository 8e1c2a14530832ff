ghost use Rattle.tallies.specs.Traffic.{traffic_kind, traffic_number};
ghost use Rattle.tallies.specs.Sums.{traffic_lawful};

use crate::tally::Tally;

// The most octets that a tally holds. Packets have the whole of their type.
const MOST_OCTETS: u64 = 1_000_000_000_000_000;

// The packets and octets of a flow.
#[derive(Clone, Copy, PartialEq, Eq, Debug)]
pub struct Traffic {
    pub packets: u32,
    pub octets: u64,
}

impl Tally for Traffic {
    ghost kind = { traffic_kind };

    ghost NUMBER = { traffic_number };

    const NUMBER: u8 = 2;

    ghost lawful = { traffic_lawful };

    fn empty() -> Traffic {
        Traffic {
            packets: 0,
            octets: 0,
        }
    }

    fn is_empty(&self) -> bool {
        self.packets == 0 && self.octets == 0
    }

    fn is_amount(&self) -> bool {
        self.octets <= MOST_OCTETS && (self.packets > 0 || self.octets > 0)
    }

    fn join(&self, amount: &Traffic) -> Option<Traffic> {
        let packets = self.packets.checked_add(amount.packets)?;
        let octets = self
            .octets
            .checked_add(amount.octets)
            .filter(|octets| *octets <= MOST_OCTETS)?;
        Some(Traffic { packets, octets })
    }

    fn take_back(&self, amount: &Traffic) -> Option<Traffic> {
        let packets = self.packets.checked_sub(amount.packets)?;
        let octets = self.octets.checked_sub(amount.octets)?;
        Some(Traffic { packets, octets })
    }
}
