// A row of calls, made one after another on a table that is opened for it.
ghost use Rattle.std.specs.Prelude.{◌≡◌, ◌*◌, ◌/◌, min, length};
ghost use Rattle.numbers.specs.Buffers.{put};
ghost use Rattle.seats.specs.Shapes.{size};
ghost use Rattle.book.specs.Books.{blank};
ghost use Rattle.exports.specs.Calls.{row_of, told};

use crate::request::{PIECE, WORDS, request_of};
use book::answer::number_of;
use rules::plain_number::PlainNumber;
use seats::seat::Seat;
use seats::shape::Shape;
use table::table::Table;
use tallies::replicas::Replicas;

// Makes as many calls as there are pieces and places for numbers, writes each call's number into its place, and gives how many
// were made. It asks how many seats are lent, since the table, the struct that holds them with the shape, is opened here. Its loop
// is that of `replay` and no call of it, which would need arrays of requests and of answers for a row of any length: no heap.
pub(crate) fn make_row(
    seats: &mut [Seat<Replicas>],
    shape: Shape,
    calls: &[u8],
    numbers: &mut [u8],
) -> usize
    requires { shape.buckets * shape.most ≡ length seats.old }
    ensures made { result ≡ min (length calls.now / 5) (length numbers.old) }
    ensures after { numbers.new ≡ put numbers.old 0 (told (blank (size shape)) (row_of result calls.now)) }
{
    let mut table = Table::open(seats, shape);
    let mut words = [0; WORDS];
    let (pieces, _) = calls.as_chunks::<PIECE>();
    let count = pieces.len().min(numbers.len());
    // written by index: after a `zip` with `iter_mut` a proof knows only how many numbers there are
    for (i, piece) in pieces[..count].iter().enumerate() {
        let answer = table.call(&PlainNumber, &request_of(piece), &mut words);
        numbers[i] = number_of(&answer);
    }
    count
}
