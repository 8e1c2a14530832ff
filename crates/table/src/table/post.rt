// Posting.
ghost use Rattle.std.specs.Prelude.{length};
ghost use Rattle.book.specs.declared.answer.Outcome.TheVariants.{Tallied};
ghost use Rattle.book.specs.Answers.{told_as};
ghost use Rattle.book.specs.Books.{post as posting};
ghost use Rattle.table.specs.Tables.{Did, SparesWords};

use super::Table;
use moves::place::place;
use rules::rule::Rule;
use seats::refusal::Refusal;
use seats::write::retally;
use tallies::tally::Tally;

impl<T: Tally + Copy> Table<'_, T> {
    // Joins an amount to what is held for the key's fingerprint, or enters it, and gives the tally then held.
    pub fn post<R: Rule>(
        &mut self,
        rule: &R,
        key: &[u8],
        amount: T,
        words: &mut [u32],
    ) -> Result<T, Refusal>
        ensures did { Did T.Tally.kind (R.Rule.meaning rule.now) self.old (posting key.now amount (length words.old)) (told_as Tallied result) self.new }
        ensures words { SparesWords (told_as Tallied result) words.old words.new }
    {
        if words.len() < 2 * self.shape.buckets as usize {
            return Err(Refusal::Words);
        }
        let fingerprint = self.fingerprint(rule, key)?;
        if !amount.is_amount() {
            return Err(Refusal::NoAmount);
        }
        match self.seat_of(fingerprint) {
            Some(i) => {
                let tally = self.tally_of(i).join(&amount).ok_or(Refusal::Ceiling)?;
                retally(self.seats, i, tally);
                Ok(tally)
            }
            None => {
                let shape = self.shape;
                place(self.seats, shape, fingerprint, amount, words)?;
                self.held = self.held.saturating_add(1);
                Ok(amount)
            }
        }
    }
}
