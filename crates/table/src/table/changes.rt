// Erasing and reversing.
ghost use Rattle.std.specs.Prelude.{◌≡◌, ◌<◌, length};
ghost use Rattle.seats.specs.Seats.{at};
ghost use Rattle.book.specs.declared.answer.Outcome.TheVariants.{Held, Tallied};
ghost use Rattle.book.specs.Answers.{told_as};
ghost use Rattle.book.specs.Books.{erase as erasing, reverse as reversing};
ghost use Rattle.table.specs.Tables.{Did};
ghost use Rattle.table.specs.Seated.{TakenOut};

use super::Table;
use rules::rule::Rule;
use seats::refusal::Refusal;
use seats::write::{retally, vacate};
use tallies::tally::Tally;

impl<T: Tally + Copy> Table<'_, T> {
    // Empties the seat `i`, counts one fingerprint fewer, and gives the tally that it had. Asks that the seat is there, as `tally_of`.
    fn take_out(&mut self, i: usize) -> T
        requires { i < length self.old.seats.now }
        ensures tally { result ≡ (at T.Tally.kind.empty self.old.seats.now i).tally }
        ensures after { TakenOut T.Tally.kind self.old i self.new }
    {
        self.held = self.held.saturating_sub(1);
        vacate(self.seats, i)
    }

    // Takes the key's fingerprint out, and gives the tally that it had.
    pub fn erase<R: Rule>(&mut self, rule: &R, key: &[u8]) -> Result<T, Refusal>
        ensures { Did T.Tally.kind (R.Rule.meaning rule.now) self.old (erasing key.now) (told_as Tallied result) self.new }
    {
        let fingerprint = self.fingerprint(rule, key)?;
        let i = self.seat_of(fingerprint).ok_or(Refusal::NotHeld)?;
        let tally = self.take_out(i);
        Ok(tally)
    }

    // Takes an amount back from what is held for the key's fingerprint, and gives what remains. What comes to empty leaves.
    pub fn reverse<R: Rule>(
        &mut self,
        rule: &R,
        key: &[u8],
        amount: T,
    ) -> Result<Option<T>, Refusal>
        ensures { Did T.Tally.kind (R.Rule.meaning rule.now) self.old (reversing key.now amount) (told_as Held result) self.new }
    {
        let fingerprint = self.fingerprint(rule, key)?;
        if !amount.is_amount() {
            return Err(Refusal::NoAmount);
        }
        let i = self.seat_of(fingerprint).ok_or(Refusal::NotHeld)?;
        let rest = self
            .tally_of(i)
            .take_back(&amount)
            .ok_or(Refusal::NotTakenBack)?;
        if rest.is_empty() {
            let _tally = self.take_out(i);
            return Ok(None);
        }
        retally(self.seats, i, rest);
        Ok(Some(rest))
    }
}
