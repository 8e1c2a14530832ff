// Widening and narrowing, and the rows in use.
ghost use Rattle.std.specs.Prelude.{◌≡◌, length};
ghost use Rattle.rules.specs.Rules.{Meaning};
ghost use Rattle.book.specs.declared.answer.Outcome.TheVariants.{Sized};
ghost use Rattle.book.specs.Answers.{told_as};
ghost use Rattle.book.specs.Books.{narrow as narrowing, widen as widening};
ghost use Rattle.table.specs.Tables.{Did, SparesWords};

use super::Table;
use book::answer::Rows;
use narrowing::clear_last_row;
use seats::refusal::Refusal;
use tallies::tally::Tally;

impl<T: Tally + Copy> Table<'_, T> {
    // The rows in use, and how many fingerprints are held.
    pub fn size(&self) -> Rows
        ensures { result ≡ record { rows = self.now.shape.rows; held = self.now.held } }
    {
        Rows {
            rows: self.shape.rows,
            held: self.held,
        }
    }

    // Takes one row more into use.
    pub fn widen(&mut self) -> Result<Rows, Refusal>
        ensures { (rule : Meaning) → Did T.Tally.kind rule self.old widening (told_as Sized result) self.new }
    {
        if self.shape.rows >= self.shape.most {
            return Err(Refusal::RowLimit);
        }
        self.shape.rows += 1;
        Ok(self.size())
    }

    // Takes one row out of use. The entries of that row move to the rows below.
    pub fn narrow(&mut self, words: &mut [u32]) -> Result<Rows, Refusal>
        ensures did { (rule : Meaning) → Did T.Tally.kind rule self.old (narrowing (length words.old)) (told_as Sized result) self.new }
        ensures words { SparesWords (told_as {V = T} Sized result) words.old words.new }
    {
        let shape = self.shape;
        let narrower = clear_last_row(self.seats, shape, words)?;
        self.shape = narrower;
        Ok(Rows {
            rows: narrower.rows,
            held: self.held,
        })
    }
}
