// The call that a request asks for.
ghost use Rattle.std.specs.Prelude.{length};
ghost use Rattle.table.specs.Tables.{Did};
ghost use Rattle.table.specs.Requests.{asked, WordsAfter};

use super::Table;
use crate::request::Request;
use book::answer::{Answer, Outcome};
use rules::rule::Rule;
use tallies::tally::Tally;

impl<T: Tally + Copy> Table<'_, T> {
    // Makes the call. As many of the work words go with it as the request says, or all if they are fewer.
    pub fn call<R: Rule>(
        &mut self,
        rule: &R,
        request: &Request<'_, T>,
        words: &mut [u32],
    ) -> Answer<T>
        ensures did { Did T.Tally.kind (R.Rule.meaning rule.now) self.old (asked (length words.old) request.now) result self.new }
        ensures words { WordsAfter request.now result words.old words.new }
    {
        // an enum and no closures: the calls are a closed set, and each takes arguments of its own
        // the words are cut in two arms: a helper that lends the front of them would have to say what becomes of the rest
        match request {
            Request::Post {
                key,
                amount,
                words: count,
            } => {
                let lent = words.len().min(*count);
                let posted = self.post(rule, key, *amount, &mut words[..lent]);
                posted.map(Outcome::Tallied)
            }
            Request::Reverse { key, amount } => {
                let reversed = self.reverse(rule, key, *amount);
                reversed.map(Outcome::Held)
            }
            Request::Erase { key } => self.erase(rule, key).map(Outcome::Tallied),
            Request::LookUp { key } => self.look_up(rule, key).map(Outcome::Held),
            // no `map` here: the borrow checker follows it only where the function's argument names the `T` of its result
            Request::Widen => {
                let widened = self.widen()?;
                Ok(Outcome::Sized(widened))
            }
            Request::Narrow { words: count } => {
                let lent = words.len().min(*count);
                let narrowed = self.narrow(&mut words[..lent])?;
                Ok(Outcome::Sized(narrowed))
            }
        }
    }
}
