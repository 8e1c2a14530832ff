// Placing a new entry: in a free seat of its own buckets, or else by moves.
ghost use Rattle.std.specs.Prelude.{◌≡◌, ◌*◌, ◌<◌, ◌≤◌, ◌⊎◌, length, MatchOption};
ghost use Rattle.seats.specs.Shapes.{size};
ghost use Rattle.moves.specs.Opening.{Crowded, First, Ready, NotReady};
ghost use Rattle.moves.specs.Placed.{Placed, Spared};

use crate::traversal::Traversal;
use crate::walk::{enter, walk_back};
use seats::find::free_seat;
use seats::refusal::Refusal;
use seats::seat::Seat;
use seats::shape::Shape;
use tallies::tally::Tally;

// A free seat of the fingerprint's own buckets, the quotient's before the remainder's.
fn own_seat<T: Tally + Copy>(seats: &[Seat<T>], shape: Shape, fingerprint: u32) -> Option<usize>
    ensures { MatchOption result
        (Crowded T.Tally.kind.empty seats.now (size shape) fingerprint)
        (λ i. First T.Tally.kind.empty seats.now (size shape) fingerprint i) }
{
    let quotient = shape.place(fingerprint, true).bucket;
    free_seat(seats, shape, quotient).or_else(|| {
        let remainder = shape.place(fingerprint, false).bucket;
        free_seat(seats, shape, remainder)
    })
}

// Opens a seat for the fingerprint in one of its buckets, by moves if they are full. What `sizes` says stands in the functions
// that this one calls too: a struct over the lent seats is no plainer, since each of its methods would have to say that it keeps
// the struct's references. So does what `below` says: a field of `Traversal` would be one more of which each method has to say
// that it stays, and a type for such a number would hold the shape, by which it is bounded, a second time.
fn open_seat<T: Tally + Copy>(
    seats: &mut [Seat<T>],
    shape: Shape,
    fingerprint: u32,
    words: &mut [u32],
) -> Option<usize>
    requires sizes { (length seats.old ≡ shape.buckets * shape.most) × (2 * shape.buckets ≤ length words.old) }
    requires below { fingerprint < (size shape).range }
    ensures seat { MatchOption result
        (NotReady T.Tally.kind.empty seats.old seats.new (size shape) fingerprint)
        (λ hole. Ready T.Tally.kind.empty seats.old seats.new (size shape) fingerprint hole) }
    ensures spared { (words.new ≡ words.old) ⊎ Crowded T.Tally.kind.empty seats.old (size shape) fingerprint }
{
    if let Some(free) = own_seat(seats, shape, fingerprint) {
        return Some(free);
    }
    let mut traversal = Traversal::new(shape, words);
    let free = traversal.nearest_free(seats, fingerprint)?;
    Some(walk_back(seats, &traversal, free))
}

// Places a new entry of the fingerprint, which the seats do not hold: in a free seat of its buckets, or where they have none
// by moving others, each to its other bucket. Refused if no seating has room for it. The seats may be any memory.
pub fn place<T: Tally + Copy>(
    seats: &mut [Seat<T>],
    shape: Shape,
    fingerprint: u32,
    tally: T,
    words: &mut [u32],
) -> Result<(), Refusal>
    ensures placed { Placed T.Tally.kind seats.old seats.new (size shape) fingerprint tally (length words.old) result }
    ensures spared { Spared T.Tally.kind seats.old (size shape) fingerprint tally words.old words.new }
{
    if seats.len() != shape.seats() {
        return Err(Refusal::Seats);
    }
    if words.len() < 2 * shape.buckets as usize {
        return Err(Refusal::Words);
    }
    if tally.is_empty() {
        return Err(Refusal::NoAmount);
    }
    if fingerprint >= shape.range().get() {
        return Err(Refusal::NoSeating);
    }
    let hole = open_seat(seats, shape, fingerprint, words).ok_or(Refusal::NoSeating)?;
    enter(seats, shape, fingerprint, tally, hole);
    Ok(())
}
