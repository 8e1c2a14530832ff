// A list of requests, made one after another on a table, and the theorem over such runs.
#![tactic(auto)]

ghost use Rattle.std.specs.Prelude.{◌≡◌, min, length, take, drop};
ghost use Rattle.replay.specs.Account.{Account};
ghost use Rattle.replay.specs.Replayed.{all_asked, Replayed};

use book::answer::Answer;
use rules::rule::Rule;
use table::request::Request;
use table::table::Table;
use tallies::tally::Tally;

// Makes the calls one after another, as many as there is room for answers, writes down each answer, and gives how many calls
// were made. Of the work words, as many go with a call as its request says.
pub fn replay<T: Tally + Copy, R: Rule>(
    table: &mut Table<'_, T>,
    rule: &R,
    requests: &[Request<'_, T>],
    words: &mut [u32],
    answers: &mut [Answer<T>],
) -> usize
    ensures made { result ≡ min (length requests.now) (length answers.old) }
    ensures replayed { Replayed T.Tally.kind (R.Rule.meaning rule.now) table.old
        (all_asked (length words.old) (take result requests.now)) (take result answers.new) table.new }
    ensures rest { drop result answers.new ≡ drop result answers.old }
    ensures account { Account T.Tally.kind (R.Rule.meaning rule.now) }
{
    let count = requests.len().min(answers.len());
    // by number, as each answer is written by its place: so a loop that begins at another request is refused for what it answers
    for i in 0..count {
        answers[i] = table.call(rule, &requests[i], words);
    }
    count
}
