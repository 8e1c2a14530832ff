use tallies::replicas::Replicas;
use tallies::tally::Tally;
use tallies::traffic::Traffic;

const MOST_PACKETS: u32 = 4_294_967_295;

const MOST_OCTETS: u64 = 1_000_000_000_000_000;

fn traffic(packets: u32, octets: u64) -> Traffic {
    Traffic { packets, octets }
}

#[test]
fn kinds_have_their_numbers(rt: HostRuntime) {
    assert_eq!(rt; <Replicas as Tally>::kind_number(), 1);
    assert_eq!(rt; <Traffic as Tally>::kind_number(), 2);
}

#[test]
fn replicas_join_up_to_their_ceiling(rt: HostRuntime) {
    assert_eq!(rt;
        Replicas(4294967294).join(&Replicas(1)),
        Some(Replicas(4294967295))
    );
    assert_eq!(rt; Replicas(4294967295).join(&Replicas(1)), None);
}

#[test]
fn replicas_are_taken_back(rt: HostRuntime) {
    assert_eq!(rt;
        Replicas(5).take_back(&Replicas(5)),
        Some(<Replicas as Tally>::empty())
    );
    assert_eq!(rt; Replicas(5).take_back(&Replicas(2)), Some(Replicas(3)));
    assert_eq!(rt; Replicas(5).take_back(&Replicas(6)), None);
}

#[test]
fn replicas_from_one_on_are_amounts(rt: HostRuntime) {
    assert!(rt; <Replicas as Tally>::empty().is_empty());
    assert!(rt; !<Replicas as Tally>::empty().is_amount());
    assert!(rt; Replicas(1).is_amount() && !Replicas(1).is_empty());
}

#[test]
fn traffic_joins_up_to_both_ceilings(rt: HostRuntime) {
    let below = traffic(MOST_PACKETS - 1, MOST_OCTETS - 1);
    let full = traffic(MOST_PACKETS, MOST_OCTETS);
    assert_eq!(rt; below.join(&traffic(1, 1)), Some(full));
    assert_eq!(rt; below.join(&traffic(2, 1)), None);
    assert_eq!(rt; below.join(&traffic(1, 2)), None);
    assert_eq!(rt; full.join(&traffic(1, 0)), None);
    assert_eq!(rt; full.join(&traffic(0, 1)), None);
}

#[test]
fn traffic_is_taken_back(rt: HostRuntime) {
    let some = traffic(3, 400);
    assert_eq!(rt; some.take_back(&some), Some(<Traffic as Tally>::empty()));
    assert_eq!(rt; some.take_back(&traffic(1, 400)), Some(traffic(2, 0)));
    assert_eq!(rt; some.take_back(&traffic(4, 1)), None);
    assert_eq!(rt; some.take_back(&traffic(1, 401)), None);
}

#[test]
fn traffic_of_one_part_is_an_amount(rt: HostRuntime) {
    assert!(rt; traffic(0, 5).is_amount() && !traffic(0, 5).is_empty());
    assert!(rt; traffic(5, 0).is_amount() && !traffic(5, 0).is_empty());
    assert!(rt; traffic(0, 0).is_empty() && !traffic(0, 0).is_amount());
    assert!(rt; traffic(0, MOST_OCTETS).is_amount());
    assert!(rt; !traffic(0, MOST_OCTETS + 1).is_amount());
}
