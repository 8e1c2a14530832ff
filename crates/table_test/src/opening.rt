use crate::support::refusal_of;
use seats::shape::Shape;

#[test]
fn buckets_of_two_to_4096_open(rt: HostRuntime) {
    assert_eq!(rt; refusal_of(Shape::check(1, 1, 1, 1)), Some(1));
    assert_eq!(rt; refusal_of(Shape::check(2, 1, 1, 2)), None);
    assert_eq!(rt; refusal_of(Shape::check(4096, 8, 8, 32768)), None);
    assert_eq!(rt; refusal_of(Shape::check(4097, 1, 1, 4097)), Some(1));
    assert_eq!(rt; refusal_of(Shape::check(0, 1, 1, 0)), Some(1));
}

#[test]
fn rows_and_seats_are_checked_in_turn(rt: HostRuntime) {
    assert_eq!(rt; refusal_of(Shape::check(4, 0, 0, 0)), Some(2));
    assert_eq!(rt; refusal_of(Shape::check(4, 9, 1, 36)), Some(2));
    assert_eq!(rt; refusal_of(Shape::check(4, 2, 0, 8)), Some(2));
    assert_eq!(rt; refusal_of(Shape::check(4, 2, 3, 8)), Some(2));
    assert_eq!(rt; refusal_of(Shape::check(4, 2, 2, 7)), Some(3));
    assert_eq!(rt; refusal_of(Shape::check(4, 2, 2, 9)), Some(3));
    assert_eq!(rt; refusal_of(Shape::check(1, 9, 0, 5)), Some(1));
}
