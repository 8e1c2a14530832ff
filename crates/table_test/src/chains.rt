use crate::support::refusal_of;
use moves::place::place;
use seats::refusal::Refusal;
use seats::seat::Seat;
use seats::shape::Shape;
use std::test::Fail;
use tallies::replicas::Replicas;

fn seat(carry: u32, flag: bool, tally: u32) -> Seat<Replicas> {
    Seat {
        carry,
        flag,
        tally: Replicas(tally),
    }
}

// Eight buckets of one row. The entries from 1 to 46 each fill their quotient bucket, 0 to 5, and lead to the next one.
fn row_of_six(
    seats: &mut [Seat<Replicas>],
    shape: Shape,
    words: &mut [u32],
) -> Result<(), Refusal> {
    for (fingerprint, tally) in [(1, 1), (10, 2), (19, 3), (28, 4), (37, 5), (46, 6)] {
        place(seats, shape, fingerprint, Replicas(tally), words)?;
    }
    Ok(())
}

#[test]
fn a_free_seat_is_taken_without_the_words(rt: HostRuntime) -> Result<(), Fail> {
    let shape = Shape::check(8, 1, 1, 8)?;
    let mut seats = [Seat::empty(); 8];
    let mut words = [5u32; 16];
    assert_eq!(rt; refusal_of(row_of_six(&mut seats, shape, &mut words)), None);
    assert_eq!(rt; words, [5; 16]);
    assert_eq!(rt; [seats[0], seats[5]], [seat(1, true, 1), seat(6, true, 6)]);
    assert_eq!(rt; [seats[6], seats[7]], [seat(0, false, 0); 2]);
    Ok(())
}

#[test]
fn a_chain_of_one_move(rt: HostRuntime) -> Result<(), Fail> {
    let shape = Shape::check(8, 1, 1, 8)?;
    let mut seats = [Seat::empty(); 8];
    let mut words = [5u32; 16];
    assert_eq!(rt;
        refusal_of(place(&mut seats, shape, 6, Replicas(1), &mut words)),
        None
    );
    assert_eq!(rt;
        refusal_of(place(&mut seats, shape, 0, Replicas(2), &mut words)),
        None
    );
    assert_eq!(rt; [seats[0], seats[6]], [seat(0, true, 2), seat(0, false, 1)]);
    Ok(())
}

#[test]
fn a_chain_of_six_moves(rt: HostRuntime) -> Result<(), Fail> {
    let shape = Shape::check(8, 1, 1, 8)?;
    let mut seats = [Seat::empty(); 8];
    let mut words = [5u32; 16];
    assert_eq!(rt; refusal_of(row_of_six(&mut seats, shape, &mut words)), None);
    assert_eq!(rt;
        refusal_of(place(&mut seats, shape, 0, Replicas(7), &mut words)),
        None
    );
    let moved = [
        seat(0, true, 7),
        seat(0, false, 1),
        seat(1, false, 2),
        seat(2, false, 3),
        seat(3, false, 4),
        seat(4, false, 5),
        seat(5, false, 6),
        seat(0, false, 0),
    ];
    assert_eq!(rt; seats, moved);
    Ok(())
}

#[test]
fn a_full_component_refuses_one_more_and_stays(rt: HostRuntime) -> Result<(), Fail> {
    let shape = Shape::check(4, 1, 1, 4)?;
    let mut seats = [Seat::empty(); 4];
    let mut words = [0u32; 8];
    assert_eq!(rt;
        refusal_of(place(&mut seats, shape, 1, Replicas(1), &mut words)),
        None
    );
    assert_eq!(rt;
        refusal_of(place(&mut seats, shape, 0, Replicas(2), &mut words)),
        None
    );
    assert_eq!(rt; [seats[0], seats[1]], [seat(0, true, 2), seat(0, false, 1)]);
    assert_eq!(rt;
        refusal_of(place(&mut seats, shape, 4, Replicas(3), &mut words)),
        Some(8)
    );
    assert_eq!(rt; [seats[0], seats[1]], [seat(0, true, 2), seat(0, false, 1)]);
    assert_eq!(rt; [seats[2], seats[3]], [seat(0, false, 0); 2]);
    Ok(())
}

#[test]
fn the_rows_not_in_use_are_left_alone(rt: HostRuntime) -> Result<(), Fail> {
    let shape = Shape::check(3, 2, 1, 6)?;
    let empty = Seat::empty();
    let other = seat(2, true, 9);
    let mut seats = [empty, other, empty, other, empty, other];
    let mut words = [0u32; 6];
    assert_eq!(rt;
        refusal_of(place(&mut seats, shape, 1, Replicas(1), &mut words)),
        None
    );
    assert_eq!(rt;
        refusal_of(place(&mut seats, shape, 0, Replicas(2), &mut words)),
        None
    );
    assert_eq!(rt;
        refusal_of(place(&mut seats, shape, 3, Replicas(3), &mut words)),
        Some(8)
    );
    assert_eq!(rt; [seats[0], seats[2]], [seat(0, true, 2), seat(0, false, 1)]);
    assert_eq!(rt; [seats[1], seats[3], seats[5]], [seat(2, true, 9); 3]);
    Ok(())
}

#[test]
fn what_cannot_be_placed_is_told_in_turn(rt: HostRuntime) -> Result<(), Fail> {
    let shape = Shape::check(3, 2, 1, 6)?;
    let mut short = [Seat::empty(); 5];
    let mut seats = [Seat::empty(); 6];
    let mut words = [1u32; 5];
    let mut enough = [1u32; 6];
    assert_eq!(rt;
        refusal_of(place(&mut short, shape, 1, Replicas(0), &mut words)),
        Some(3)
    );
    assert_eq!(rt;
        refusal_of(place(&mut seats, shape, 1, Replicas(0), &mut words)),
        Some(4)
    );
    assert_eq!(rt;
        refusal_of(place(&mut seats, shape, 1, Replicas(0), &mut enough)),
        Some(6)
    );
    assert_eq!(rt;
        refusal_of(place(&mut seats, shape, 6, Replicas(1), &mut enough)),
        Some(8)
    );
    assert_eq!(rt; words, [1; 5]);
    assert_eq!(rt; enough, [1; 6]);
    Ok(())
}
