ghost use Rattle.std.specs.Prelude.{◌≡◌};
ghost use Rattle.seats.specs.Refusals.{refusal_number};

// Why a call is turned away.
#[derive(Clone, Copy, PartialEq, Eq, Debug)]
pub enum Refusal {
    // the buckets are not 2 to 4,096
    Buckets = 1,
    // the most rows are not 1 to 8, or the rows not 1 to the most
    Rows = 2,
    // the seats lent are not as many as the buckets times the most rows
    Seats = 3,
    // the work words lent are fewer than two for each bucket
    Words = 4,
    // the key is over 64 bytes
    LongKey = 5,
    // what is posted or reversed is no amount
    NoAmount = 6,
    // the joined tally would pass its ceiling
    Ceiling = 7,
    // what is held has no seating together with the fingerprint posted
    NoSeating = 8,
    // the fingerprint to be reversed or erased is not held
    NotHeld = 9,
    // no value joins with the amount to the one held
    NotTakenBack = 10,
    // there is no row to add, or but one row
    RowLimit = 11,
    // what is held has no seating in one row fewer
    NoNarrowSeating = 12,
}

impl Refusal {
    // The number by which answers name it.
    pub fn number(self) -> u8
        ensures { result ≡ refusal_number self }
    {
        self as u8
    }
}
