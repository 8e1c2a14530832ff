ghost use Rattle.std.specs.Prelude.{◌≡◌};
ghost use Rattle.seats.specs.Seats.{vacant};

use tallies::tally::Tally;

// A seat: empty, with carry 0, flag false and the empty tally; or filled, with a tally that is not empty, and with the
// carry and the flag of a fingerprint's place in the seat's bucket. Flag and carry are two fields and no enum: that a seat is a
// record of one shape, with a carry, a flag and a tally, is a rule of the project (docs/TABLE.md).
#[derive(Clone, Copy, PartialEq, Eq, Debug)]
pub struct Seat<T> {
    pub carry: u32,
    pub flag: bool,
    pub tally: T,
}

impl<T: Tally> Seat<T> {
    // An empty seat.
    pub fn empty() -> Seat<T>
        ensures { result ≡ vacant T.Tally.kind.empty }
    {
        Seat {
            carry: 0,
            flag: false,
            tally: T::empty(),
        }
    }
}
