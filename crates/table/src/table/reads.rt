// Opening a table, and what its seats hold of a fingerprint.
ghost use Rattle.std.specs.Prelude.{◌≡◌, ℕ, ◌*◌, ◌<◌, true, length, replicate, MatchOption, MatchResult};
ghost use Rattle.seats.specs.declared.refusal.Refusal.TheVariants.{LongKey};
ghost use Rattle.seats.specs.Seats.{at, vacant};
ghost use Rattle.book.specs.declared.answer.Outcome.TheVariants.{Held};
ghost use Rattle.book.specs.Answers.{told_as};
ghost use Rattle.book.specs.Books.{look_up as looking, too_long};
ghost use Rattle.table.specs.Tables.{Fresh, Did};
ghost use Rattle.table.specs.Seated.{Keyed, SitsIn};

use super::Table;
use rules::rule::Rule;
use seats::find::find;
use seats::refusal::Refusal;
use seats::seat::Seat;
use seats::shape::Shape;
use seats::write::{tally_at, vacate_all};
use tallies::tally::Tally;

// The most bytes of a key.
const LONGEST: usize = 64;

impl<'a, T: Tally + Copy> Table<'a, T> {
    // A table that holds nothing, whatever the seats held.
    pub fn open(seats: &'a mut [Seat<T>], shape: Shape) -> Table<'a, T>
        ensures fresh { shape.buckets * shape.most ≡ length seats.old → Fresh T.Tally.kind result }
        ensures seats { result.seats.now ≡ replicate (length seats.old) (vacant T.Tally.kind.empty) }
        ensures numbers { (result.shape ≡ shape) × (result.held ≡ 0) × (result.seats.ghost_name ≡ seats.entry.ghost_name) }
    {
        vacate_all(seats);
        Table {
            seats,
            shape,
            held: 0,
        }
    }
}

impl<T: Tally + Copy> Table<'_, T> {
    // The fingerprint of a key. A key of more than 64 bytes is turned away.
    pub(crate) fn fingerprint<R: Rule>(&self, rule: &R, key: &[u8]) -> Result<u32, Refusal>
        ensures { MatchResult result
            (Keyed (R.Rule.meaning rule.now) self.now key.now)
            (λ why. (why ≡ LongKey) × (too_long key.now ≡ true)) }
    {
        if key.len() > LONGEST {
            return Err(Refusal::LongKey);
        }
        Ok(rule.fingerprint(key, self.shape.range()))
    }

    // The seat that holds the fingerprint.
    pub(crate) fn seat_of(&self, fingerprint: u32) -> Option<usize>
        ensures { MatchOption result
            ((i : ℕ) → SitsIn T.Tally.kind self.now fingerprint i → ⊥)
            (λ i. SitsIn T.Tally.kind self.now fingerprint i) }
    {
        find(self.seats, self.shape, fingerprint)
    }

    // The tally of the seat `i`. Asks that the seat is there, as `seats::write` does, whose first lines say why no type holds it.
    pub(crate) fn tally_of(&self, i: usize) -> T
        requires { i < length self.now.seats.now }
        ensures { result ≡ (at T.Tally.kind.empty self.now.seats.now i).tally }
    {
        tally_at(self.seats, i)
    }

    // The tally that is held for the key's fingerprint, or nothing.
    pub fn look_up<R: Rule>(&self, rule: &R, key: &[u8]) -> Result<Option<T>, Refusal>
        ensures { Did T.Tally.kind (R.Rule.meaning rule.now) self.now (looking key.now) (told_as Held result) self.now }
    {
        let fingerprint = self.fingerprint(rule, key)?;
        // named outside the closure: of what a closure reads through `self` a proof learns nothing
        let seats = &*self.seats;
        let held = self.seat_of(fingerprint).map(|i| tally_at(seats, i));
        Ok(held)
    }
}
