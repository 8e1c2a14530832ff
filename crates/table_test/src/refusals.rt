use crate::support::{refusal_of, stale};
use rules::fnv::Fnv;
use rules::plain_number::PlainNumber;
use seats::seat::Seat;
use seats::shape::Shape;
use std::test::Fail;
use table::table::Table;
use tallies::replicas::Replicas;
use tallies::traffic::Traffic;

#[test]
fn keys_of_64_bytes_pass_and_65_do_not(rt: HostRuntime) -> Result<(), Fail> {
    let mut seats = [stale(); 4];
    let shape = Shape::check(2, 2, 1, seats.len())?;
    let mut table = Table::open(&mut seats, shape);
    let mut words = [9u32; 4];
    assert_eq!(rt;
        refusal_of(table.post(&Fnv, &[1; 65], Replicas(1), &mut words)),
        Some(5)
    );
    assert_eq!(rt;
        refusal_of(table.reverse(&Fnv, &[1; 65], Replicas(1))),
        Some(5)
    );
    assert_eq!(rt; refusal_of(table.erase(&Fnv, &[1; 65])), Some(5));
    assert_eq!(rt; refusal_of(table.look_up(&Fnv, &[1; 65])), Some(5));
    assert_eq!(rt;
        refusal_of(table.post(&Fnv, &[1; 64], Replicas(1), &mut words)),
        None
    );
    assert_eq!(rt; words, [9; 4]);
    assert_eq!(rt;
        refusal_of(table.reverse(&Fnv, &[1; 64], Replicas(2))),
        Some(10)
    );
    assert_eq!(rt; refusal_of(table.erase(&Fnv, &[1; 64])), None);
    assert_eq!(rt; refusal_of(table.erase(&Fnv, &[1; 64])), Some(9));
    assert_eq!(rt; refusal_of(table.look_up(&Fnv, &[1; 64])), None);
    Ok(())
}

#[test]
fn early_refusals_leave_seats_and_words(rt: HostRuntime) -> Result<(), Fail> {
    let mut seats = [stale(); 4];
    let shape = Shape::check(2, 2, 1, seats.len())?;
    let mut few = [9u32; 3];
    let mut words = [9u32; 4];
    {
        let mut table = Table::open(&mut seats, shape);
        assert_eq!(rt;
            refusal_of(table.post(&PlainNumber, &[1; 65], Replicas(0), &mut few)),
            Some(4)
        );
        assert_eq!(rt;
            refusal_of(table.post(&PlainNumber, &[1; 65], Replicas(0), &mut words)),
            Some(5)
        );
        assert_eq!(rt;
            refusal_of(table.post(&PlainNumber, &[1], Replicas(0), &mut words)),
            Some(6)
        );
        assert_eq!(rt; refusal_of(table.narrow(&mut few)), Some(4));
        assert_eq!(rt; refusal_of(table.narrow(&mut words)), Some(11));
        assert_eq!(rt;
            refusal_of(table.reverse(&PlainNumber, &[1], Replicas(0))),
            Some(6)
        );
        assert_eq!(rt;
            refusal_of(table.reverse(&PlainNumber, &[1], Replicas(1))),
            Some(9)
        );
    }
    assert_eq!(rt; few, [9; 3]);
    assert_eq!(rt; words, [9; 4]);
    assert_eq!(rt; seats, [Seat::empty(); 4]);
    Ok(())
}

#[test]
fn a_ceiling_refuses_and_leaves_the_tally(rt: HostRuntime) -> Result<(), Fail> {
    let most = Traffic {
        packets: 1,
        octets: 1_000_000_000_000_000,
    };
    let one = Traffic {
        packets: 0,
        octets: 1,
    };
    let mut seats = [Seat::<Traffic>::empty(); 2];
    let shape = Shape::check(2, 1, 1, seats.len())?;
    let mut table = Table::open(&mut seats, shape);
    let mut words = [0u32; 4];
    assert_eq!(rt;
        refusal_of(table.post(&PlainNumber, &[1], most, &mut words)),
        None
    );
    assert_eq!(rt;
        refusal_of(table.post(&PlainNumber, &[1], one, &mut words)),
        Some(7)
    );
    assert_eq!(rt; table.look_up(&PlainNumber, &[1]), Ok(Some(most)));
    assert_eq!(rt; refusal_of(table.widen()), Some(11));
    Ok(())
}
