// Reading and writing one seat, and emptying all. Three functions ask that the seat is there, and so do those of `moves` and of
// `table` that are given one: a type for such an index would have to hold the lent slice, which its caller goes on using.
ghost use Rattle.std.specs.Prelude.{◌≡◌, ◌<◌, length, replicate, slice_set};
ghost use Rattle.seats.specs.Seats.{at, seat, vacant};

use crate::seat::Seat;
use tallies::tally::Tally;

// The tally of the seat `i`.
pub fn tally_at<T: Tally + Copy>(seats: &[Seat<T>], i: usize) -> T
    requires { i < length seats.now }
    ensures { result ≡ (at T.Tally.kind.empty seats.now i).tally }
{
    seats[i].tally
}

// Gives the seat `i` another tally.
pub fn retally<T: Tally + Copy>(seats: &mut [Seat<T>], i: usize, tally: T)
    requires { i < length seats.old }
    ensures { seats.new ≡ slice_set seats.old i (seat (at T.Tally.kind.empty seats.old i).carry (at T.Tally.kind.empty seats.old i).flag tally) }
{
    seats[i] = Seat { tally, ..seats[i] };
}

// Empties the seat `i`, and gives the tally that it had.
pub fn vacate<T: Tally + Copy>(seats: &mut [Seat<T>], i: usize) -> T
    requires { i < length seats.old }
    ensures value { result ≡ (at T.Tally.kind.empty seats.old i).tally }
    ensures after { seats.new ≡ slice_set seats.old i (vacant T.Tally.kind.empty) }
{
    let tally = seats[i].tally;
    seats[i] = Seat::empty();
    tally
}

// Empties every seat.
pub fn vacate_all<T: Tally + Copy>(seats: &mut [Seat<T>])
    ensures { seats.new ≡ replicate (length seats.old) (vacant T.Tally.kind.empty) }
{
    // a loop: `fill` asks that a `clone` cannot fail, which no bound of `T` says here, and the borrow checker does not follow
    // `fill_with` where the function's result names a `T` that no argument names. By number, so that a loop which begins at
    // another seat is refused for the seat that it leaves
    for i in 0..seats.len() {
        seats[i] = Seat::empty();
    }
}
