// A call as five bytes ask for it.
ghost use Rattle.std.specs.Prelude.{◌≡◌};
ghost use Rattle.table.specs.Requests.{asked};
ghost use Rattle.exports.specs.Calls.{lent, piece_asks};

use table::request::Request;
use tallies::replicas::Replicas;

// How many bytes ask for one call: its code, and a key of four bytes.
pub(crate) const PIECE: usize = 5;

// How many work words are lent: two for each bucket of a table with the most buckets.
pub(crate) const WORDS: usize = 8192;

// What five bytes ask of the table. The codes are numbers, since C passes them. They are those of papers' records, and stand here
// again, since `exports` has no edge to `paper`. A code that names no other call asks for a look-up.
pub(crate) fn request_of<'k>(piece: &'k [u8; PIECE]) -> Request<'k, Replicas>
    ensures { asked lent result ≡ piece_asks piece.now }
{
    let key = &piece[1..PIECE];
    let amount = Replicas(1);
    match piece[0] {
        1 => Request::Post {
            key,
            amount,
            words: WORDS,
        },
        2 => Request::Reverse { key, amount },
        3 => Request::Erase { key },
        5 => Request::Widen,
        6 => Request::Narrow { words: WORDS },
        _ => Request::LookUp { key },
    }
}
