// Narrowing: the last row in use of every bucket is cleared, its entries seated in the rows below.
#![tactic(auto)]

ghost use Rattle.std.specs.Prelude.{◌≡◌, ◌*◌, ◌<◌, ◌≤◌, length, None, MatchOption, ◌≢◌};
ghost use Rattle.seats.specs.Shapes.{size};
ghost use Rattle.seats.specs.Places.{given_back};
ghost use Rattle.narrowing.specs.Narrowed.{stops, narrower, Lowered, Narrowed};

use moves::place::place;
use seats::place::Place;
use seats::refusal::Refusal;
use seats::seat::Seat;
use seats::shape::Shape;
use seats::write::vacate;
use tallies::tally::Tally;

// The fingerprint that a place gives back, if it is one.
fn fingerprint_at(shape: Shape, place: Place) -> Option<u32>
    ensures { MatchOption result
        ((size shape).range ≤ given_back shape.buckets place)
        (λ f. (f ≡ given_back shape.buckets place) × (f < (size shape).range)) }
{
    let range = shape.range().get();
    u32::try_from(shape.fingerprint(place))
        .ok()
        .filter(|fingerprint| *fingerprint < range)
}

// Seats the entry in the last row of a bucket in the rows below, if there is one, and empties its seat. `lower` is the shape
// with one row fewer. Refused where the entry has no seat there. What `sizes` says is asked in `moves` too: a struct over the
// lent seats is no plainer, as `open_seat` there says.
fn lower_entry<T: Tally + Copy>(
    seats: &mut [Seat<T>],
    shape: Shape,
    lower: Shape,
    bucket: u32,
    words: &mut [u32],
) -> Result<(), Refusal>
    requires sizes { (length seats.old ≡ shape.buckets * shape.most) × (2 * shape.buckets ≤ length words.old) × (bucket < shape.buckets) }
    requires lower { (1 < shape.rows) × (size lower ≡ narrower (size shape)) }
    ensures { Lowered T.Tally.kind.empty seats.old seats.new (size shape) bucket result }
{
    let i = (bucket * shape.most + (shape.rows - 1)) as usize;
    let seat = seats[i];
    if seat.tally.is_empty() {
        return Ok(());
    }
    let held_at = Place {
        bucket,
        carry: seat.carry,
        flag: seat.flag,
    };
    let fingerprint = fingerprint_at(shape, held_at).ok_or(Refusal::NoNarrowSeating)?;
    place(seats, lower, fingerprint, seat.tally, words).map_err(|_| Refusal::NoNarrowSeating)?;
    vacate(seats, i);
    Ok(())
}

// Clears the last row in use, and gives the shape with one row fewer. Entries may have moved also where the call is refused.
pub fn clear_last_row<T: Tally + Copy>(
    seats: &mut [Seat<T>],
    shape: Shape,
    words: &mut [u32],
) -> Result<Shape, Refusal>
    ensures narrowed { Narrowed T.Tally.kind.empty seats.old seats.new (size shape) (length words.old) result }
    ensures kept { (stops (size shape) (length seats.old) (length words.old) ≢ None) → words.new ≡ words.old }
{
    if words.len() < 2 * shape.buckets as usize {
        return Err(Refusal::Words);
    }
    if shape.rows <= 1 {
        return Err(Refusal::RowLimit);
    }
    if seats.len() != shape.seats() {
        return Err(Refusal::Seats);
    }
    // written out, since Rattle refuses `..shape` in a struct with a ghost field
    let lower = Shape {
        buckets: shape.buckets,
        most: shape.most,
        rows: shape.rows - 1,
    };
    // by number, since each step is lent all seats
    for bucket in 0..shape.buckets {
        lower_entry(seats, shape, lower, bucket, words)?;
    }
    Ok(lower)
}
