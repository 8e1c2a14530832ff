use crate::support::stale;
use book::answer::{Outcome, Rows};
use replay::replay;
use rules::plain_number::PlainNumber;
use seats::refusal::Refusal;
use seats::shape::Shape;
use std::test::Fail;
use table::request::Request;
use table::table::Table;
use tallies::replicas::Replicas;

#[test]
fn nine_calls_answer_as_worked_by_hand(rt: HostRuntime) -> Result<(), Fail> {
    let mut seats = [stale(); 6];
    let shape = Shape::check(3, 2, 1, seats.len())?;
    let mut table = Table::open(&mut seats, shape);
    let requests = [
        Request::Post {
            key: &[1],
            amount: Replicas(1),
            words: 6,
        },
        Request::Post {
            key: &[3],
            amount: Replicas(2),
            words: 6,
        },
        Request::Post {
            key: &[0],
            amount: Replicas(1),
            words: 6,
        },
        Request::Widen,
        Request::Post {
            key: &[0],
            amount: Replicas(1),
            words: 6,
        },
        Request::Narrow { words: 6 },
        Request::Reverse {
            key: &[3],
            amount: Replicas(2),
        },
        Request::Narrow { words: 6 },
        Request::LookUp { key: &[7] },
    ];
    let mut words = [3u32; 6];
    let mut answers = [Ok(Outcome::Held(None)); 9];
    let made = replay(
        &mut table,
        &PlainNumber,
        &requests,
        &mut words,
        &mut answers,
    );
    assert_eq!(rt; made, 9);
    let by_hand = [
        Ok(Outcome::Tallied(Replicas(1))),
        Ok(Outcome::Tallied(Replicas(2))),
        Err(Refusal::NoSeating),
        Ok(Outcome::Sized(Rows { rows: 2, held: 2 })),
        Ok(Outcome::Tallied(Replicas(1))),
        Err(Refusal::NoNarrowSeating),
        Ok(Outcome::Held(None)),
        Ok(Outcome::Sized(Rows { rows: 1, held: 2 })),
        Ok(Outcome::Held(Some(Replicas(1)))),
    ];
    assert_eq!(rt; answers, by_hand);
    Ok(())
}
