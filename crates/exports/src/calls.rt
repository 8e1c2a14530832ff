// A row of calls, for other languages.
ghost use Rattle.std.specs.Prelude.{◌≡◌, length};
ghost use Rattle.numbers.specs.Buffers.{put};
ghost use Rattle.book.specs.Books.{blank};
ghost use Rattle.exports.specs.Calls.{how_many, row_of, size_of, told};

use crate::row::make_row;
use seats::seat::Seat;
use seats::shape::Shape;
use tallies::replicas::Replicas;

// The seats of the largest table. They lie in an array, since the library takes no memory from the heap.
const SEATS: usize = 32_768;

// Makes calls one after another on a table of replicas that is opened with these numbers, under the plain-number rule. Each
// takes five bytes: a code, and a key of four bytes. Writes the number of each call's refusal, or 0, into its place, and gives
// how many calls were made: none if no table can be opened with these numbers.
#[unsafe(no_mangle)]
pub extern "C" fn sundrilga_make_calls(
    buckets: u32,
    most: u32,
    rows: u32,
    calls: &[u8],
    numbers: &mut [u8],
) -> usize
    ensures made { result ≡ how_many buckets most rows (length calls.now) (length numbers.old) }
    ensures after { numbers.new ≡ put numbers.old 0 (told (blank (size_of buckets most rows)) (row_of result calls.now)) }
{
    let mut seats = [Seat::<Replicas>::empty(); SEATS];
    let count = buckets as usize * most as usize;
    match Shape::check(buckets, most, rows, count) {
        Ok(shape) => make_row(&mut seats[0..count], shape, calls, numbers),
        // C has no Result
        Err(_) => 0,
    }
}
