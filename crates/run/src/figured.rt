ghost use Rattle.std.specs.Prelude.{◌≡◌, ℕ, ◌≤◌, true};
ghost use Rattle.run.specs.Figures.{replicas_shown, replicas_made, traffic_shown, traffic_made};
ghost use Rattle.std.proofs.Common.{rules};

use tallies::replicas::Replicas;
use tallies::tally::Tally;
use tallies::traffic::Traffic;

// A kind of tally that papers have. `shown` is what is printed of a tally, its packets or its count and its octets, and
// `made` the tally that a record's packets and octets stand for.
pub trait Figured: Tally {
    ghost shown: { Self → ℕ × ℕ };

    ghost made: { ℕ → ℕ → Self };

    // What is printed of the tally: a pair, since a line has the two one after the other.
    fn figures(&self) -> (u32, u64)
        ensures value { result ≡ shown self.now };

    // The tally that these stand for.
    fn of_figures(packets: u32, octets: u64) -> Self
        ensures { result ≡ made packets octets };

    ghost small: { (v : Self) → Self.Tally.kind.is_value v ≡ true → (shown v).1 ≤ 1000000000000000 };
}

impl Figured for Replicas {
    ghost shown = { replicas_shown };

    ghost made = { replicas_made };

    ghost small = { Prim.search rules };

    fn figures(&self) -> (u32, u64) {
        (self.0, 0)
    }

    fn of_figures(packets: u32, _octets: u64) -> Replicas {
        Replicas(packets)
    }
}

impl Figured for Traffic {
    ghost shown = { traffic_shown };

    ghost made = { traffic_made };

    ghost small = { Prim.search rules };

    fn figures(&self) -> (u32, u64) {
        (self.packets, self.octets)
    }

    fn of_figures(packets: u32, octets: u64) -> Traffic {
        Traffic { packets, octets }
    }
}
