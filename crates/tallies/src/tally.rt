ghost use Rattle.std.specs.Prelude.{◌≡◌, ℕ};
ghost use Rattle.tallies.specs.Kinds.{Kind, Lawful};

// A kind of tally. `kind` is its meaning, and `lawful` says that it keeps the laws of one.
// No method changes what it is given.
pub trait Tally: Sized {
    ghost kind: { Kind Self };

    // The number by which papers name the kind, or 0 if they name it by none.
    ghost NUMBER: { ℕ };

    const NUMBER: u8;

    // The kind's number.
    fn kind_number() -> u8
        ensures { result ≡ NUMBER }
    {
        Self::NUMBER
    }

    // The value of what is not held.
    fn empty() -> Self
        ensures { result ≡ kind.empty };

    // Whether this is the empty value.
    fn is_empty(&self) -> bool
        ensures value { result ≡ kind.is_empty self.now };

    // Whether this may be joined or taken back.
    fn is_amount(&self) -> bool
        ensures value { result ≡ kind.is_amount self.now };

    // The value with the amount joined to it, or nothing where that passes the ceiling.
    fn join(&self, amount: &Self) -> Option<Self>
        ensures value { result ≡ kind.join self.now amount.now };

    // The value that, joined with the amount, makes this one, or nothing if there is none.
    fn take_back(&self, amount: &Self) -> Option<Self>
        ensures value { result ≡ kind.take_back self.now amount.now };

    ghost lawful: { Lawful kind };
}
