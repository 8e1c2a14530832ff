// One record's call, and its line.
ghost use Rattle.std.specs.Prelude.{◌≡◌, ◌≤◌, length};
ghost use Rattle.book.specs.Books.{Book};
ghost use Rattle.table.specs.Requests.{asked};
ghost use Rattle.table.specs.Tables.{Keeps};
ghost use Rattle.run.specs.Called.{Called};
ghost use Rattle.run.specs.Printed.{call_for, figures_after, lent};

use crate::figured::Figured;
use crate::lines::Line;
use book::answer::number_of;
use paper::record::{Call, Record};
use rules::rule::Rule;
use table::request::Request;
use table::table::Table;

// How many work words are lent: two for each bucket of the table with the most buckets.
pub(crate) const WORDS: usize = 512;

// What a record asks of the table. The calls are a closed set, and each takes arguments of its own: an enum says so, and a
// closure for each would not.
fn request_of<'k, T: Figured>(record: &'k Record) -> Request<'k, T>
    ensures { asked lent result ≡ call_for T.Figured.made «record».now }
{
    let key = &record.key;
    match record.call {
        Call::Post => Request::Post {
            key,
            amount: T::of_figures(record.packets, record.octets),
            words: WORDS,
        },
        Call::Reverse => Request::Reverse {
            key,
            amount: T::of_figures(record.packets, record.octets),
        },
        Call::Erase => Request::Erase { key },
        Call::LookUp => Request::LookUp { key },
        Call::Widen => Request::Widen,
        Call::Narrow => Request::Narrow { words: WORDS },
    }
}

// What the table holds for the record's key, or, where the call takes no key, its rows in use and how many it holds. Nothing
// held is two zeros, since these are the figures of a line.
fn figures_after<T: Figured + Copy, R: Rule>(
    table: &Table<'_, T>,
    rule: &R,
    record: &Record,
) -> (u32, u64)
    ensures { (b : Book T) → Keeps T.Tally.kind table.now b →
        (result ≡ figures_after (R.Rule.meaning rule.now) T.Figured.shown b «record».now) × (result.1 ≤ 1000000000000000) }
{
    match record.call {
        Call::Widen | Call::Narrow => {
            let size = table.size();
            (size.rows, u64::from(size.held))
        }
        Call::Post | Call::Reverse | Call::Erase | Call::LookUp => {
            match table.look_up(rule, &record.key) {
                Ok(Some(tally)) => tally.figures(),
                Ok(None) | Err(_) => (0, 0),
            }
        }
    }
}

// Makes the call of a record in a place of the paper, and gives its line.
pub(crate) fn call_line<T: Figured + Copy, R: Rule>(
    table: &mut Table<'_, T>,
    rule: &R,
    record: &Record,
    words: &mut [u32; WORDS],
    place: u64,
) -> Line
    ensures { (b : Book T) → Keeps T.Tally.kind table.old b →
        Called T.Tally.kind (R.Rule.meaning rule.now) T.Figured.shown T.Figured.made b place «record».now result table.new }
{
    let request = request_of(record);
    let answer = table.call(rule, &request, words);
    let (first, second) = figures_after(table, rule, record);
    Line {
        place,
        number: u64::from(number_of(&answer)),
        first: u64::from(first),
        second,
    }
}
