use seats::seat::Seat;
use seats::shape::Shape;

mod call;
mod changes;
mod post;
mod reads;
mod rows;

// A table over lent seats, with its numbers and how many fingerprints it holds. The rule is no field but is lent with each call
// that takes a key, since what seats show does not depend on it: widening and narrowing hold for every rule.
#[derive(Drop)]
pub struct Table<'a, T> {
    seats: &'a mut [Seat<T>],
    shape: Shape,
    held: u32,
}
