// The moves along a chain that the traversal found, and the entry of a new fingerprint.
ghost use Rattle.std.specs.Prelude.{◌≡◌, ℕ, ◌*◌, ◌<◌, length, slice_index, slice_set};
ghost use Rattle.seats.specs.Shapes.{size};
ghost use Rattle.moves.specs.Queue.{root};
ghost use Rattle.moves.specs.Traversal.{Chain};
ghost use Rattle.moves.specs.Walk.{moved, entered, Opened};

use crate::traversal::{ROOT, Traversal};
use seats::seat::Seat;
use seats::shape::Shape;
use tallies::tally::Tally;

// Moves the entry of the seat `from`, in `bucket`, on to the free seat `hole` of its other bucket. Asks that the seats are there,
// as `seats::write` does, whose first lines say why no type holds them.
fn move_entry<T: Tally + Copy>(seats: &mut [Seat<T>], from: usize, bucket: u32, hole: usize)
    requires { (from < length seats.old) × (hole < length seats.old) }
    ensures { seats.new ≡ slice_set seats.old hole (moved T.Tally.kind.empty seats.old from bucket) }
{
    let entry = seats[from];
    seats[hole] = Seat {
        carry: bucket,
        flag: !entry.flag,
        ..entry
    };
}

// Moves each entry of the chain that leads to the free seat on by one, the last first, and gives the seat at the chain's root
// that is open then. The entry there has moved on too: the seat is to be written. A `while`, since it follows links and goes
// over no list: an iterator of the links would have to borrow the words, and no less would stand in the loop.
pub(crate) fn walk_back<T: Tally + Copy>(
    seats: &mut [Seat<T>],
    traversal: &Traversal,
    free: usize,
) -> usize
    requires sizes { length seats.old ≡ traversal.now.shape.buckets * traversal.now.shape.most }
    requires chain { Chain T.Tally.kind.empty seats.old (size traversal.now.shape) traversal.now.links.now free }
    ensures { (bucket : ℕ) × (slice_index traversal.now.links.now bucket ≡ root) ×
        Opened T.Tally.kind.empty seats.old seats.new (size traversal.now.shape) bucket result }
{
    let mut hole = free;
    let mut bucket = free / traversal.shape.most as usize;
    while traversal.links[bucket] != ROOT {
        let from = traversal.links[bucket] as usize;
        let next = from / traversal.shape.most as usize;
        move_entry(seats, from, next as u32, hole);
        hole = from;
        bucket = next;
    }
    hole
}

// Writes the entry of the fingerprint into the seat `hole` of one of its buckets. Asks that the seat is there, as `move_entry`.
pub(crate) fn enter<T: Tally + Copy>(
    seats: &mut [Seat<T>],
    shape: Shape,
    fingerprint: u32,
    tally: T,
    hole: usize,
)
    requires { hole < length seats.old }
    ensures { seats.new ≡ slice_set seats.old hole (entered (size shape) fingerprint hole tally) }
{
    let quotient = shape.place(fingerprint, true).bucket;
    let flag = hole / shape.most as usize == quotient as usize;
    let place = shape.place(fingerprint, flag);
    seats[hole] = Seat {
        carry: place.carry,
        flag,
        tally,
    };
}
