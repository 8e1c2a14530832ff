// Finding a seat: the one that holds a fingerprint, or an empty one of a bucket.
ghost use Rattle.std.specs.Prelude.{◌≡◌, ℕ, ◌+◌, ◌*◌, ◌<◌, Decides, MatchOption, length, true, false};
ghost use Rattle.std.specs.Fn.{FnReturnsAt};
ghost use Rattle.seats.specs.Shapes.{size};
ghost use Rattle.seats.specs.Places.{place_of};
ghost use Rattle.seats.specs.Seats.{at, Free, Holds, Lies, Sits};

use crate::seat::Seat;
use crate::shape::Shape;
use tallies::tally::Tally;

// The first seat among the rows in use of a bucket, as far as there are seats, that passes the test.
fn first_seat<T: Tally + Copy, F: Fn(&Seat<T>) -> bool>(
    seats: &[Seat<T>],
    shape: Shape,
    bucket: u32,
    test: F,
) -> Option<usize>
    requires { F.IsAlwaysCallable test }
    ensures { MatchOption result
        ((i : ℕ) → Lies (size shape) bucket i → i < length seats.now → FnReturnsAt F.Fn test (at T.Tally.kind.empty seats.now i) false)
        (λ i. Lies (size shape) bucket i × (i < length seats.now) × FnReturnsAt F.Fn test (at T.Tally.kind.empty seats.now i) true) }
{
    let first = bucket as usize * shape.most as usize;
    let end = seats.len().min(first + shape.rows as usize);
    let rows = seats.get(first..end)?;
    // a loop: `position` was tried, and its proof did not close, since the check asked of every state of the test, and not of
    // those that are reached, that it may be called
    for (row, seat) in rows.iter().enumerate() {
        if test(seat) {
            return Some(first + row);
        }
    }
    None
}

// The seat that holds the fingerprint at this flag: among the rows in use of its place's bucket, filled, with the place's
// carry and flag. The flag is a `bool`, as in `Place`.
fn seat_at<T: Tally + Copy>(
    seats: &[Seat<T>],
    shape: Shape,
    fingerprint: u32,
    flag: bool,
) -> Option<usize>
    ensures { let place = place_of shape.buckets fingerprint flag in MatchOption result
        ((i : ℕ) → Lies (size shape) place.bucket i → Holds T.Tally.kind.empty seats.now place i → ⊥)
        (λ i. Lies (size shape) place.bucket i × Holds T.Tally.kind.empty seats.now place i) }
{
    let place = shape.place(fingerprint, flag);
    first_seat(seats, shape, place.bucket, |seat| {
        seat.carry == place.carry && seat.flag == place.flag && !seat.tally.is_empty()
    })
}

// The seat that holds the fingerprint, looked for in both of its buckets.
pub fn find<T: Tally + Copy>(seats: &[Seat<T>], shape: Shape, fingerprint: u32) -> Option<usize>
    ensures { MatchOption result
        ((i : ℕ) → Sits T.Tally.kind.empty seats.now (size shape) fingerprint i → ⊥)
        (λ i. Sits T.Tally.kind.empty seats.now (size shape) fingerprint i) }
{
    if fingerprint >= shape.range().get() {
        return None;
    }
    seat_at(seats, shape, fingerprint, true).or_else(|| seat_at(seats, shape, fingerprint, false))
}

// An empty seat among the rows in use of a bucket, if there is one.
pub fn free_seat<T: Tally + Copy>(seats: &[Seat<T>], shape: Shape, bucket: u32) -> Option<usize>
    ensures { MatchOption result
        ((i : ℕ) → Lies (size shape) bucket i → Free T.Tally.kind.empty seats.now i → ⊥)
        (λ i. Lies (size shape) bucket i × Free T.Tally.kind.empty seats.now i) }
{
    first_seat(seats, shape, bucket, |seat| seat.tally.is_empty())
}
