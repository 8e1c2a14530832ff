use seats::refusal::Refusal;
use seats::seat::Seat;
use tallies::replicas::Replicas;

// A seat with something in it that no table put there.
pub(crate) fn stale() -> Seat<Replicas> {
    Seat {
        carry: 7,
        flag: true,
        tally: Replicas(9),
    }
}

// The number of the refusal, if the call was refused.
pub(crate) fn refusal_of<X: Drop>(outcome: Result<X, Refusal>) -> Option<u8> {
    outcome.err().map(Refusal::number)
}
