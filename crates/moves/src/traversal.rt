// The breadth-first traversal of the buckets, for a free seat. It begins with the two buckets of a fingerprint, and goes
// on from each full bucket to the other buckets of the entries there.
ghost use Rattle.std.specs.Prelude.{◌≡◌, ℕ, ◌+◌, ◌-◌, ◌*◌, ◌<◌, ◌≤◌, length, MatchOption, slice_index};

use seats::seat::Seat;
use seats::shape::Shape;
use tallies::tally::Tally;

// The link of a bucket that was not reached. It is a number, since the links lie in words that the caller lends.
const UNSEEN: u32 = 4_294_967_295;

// The link of a bucket that the traversal begins with. Any other link is the seat from which the bucket was reached.
pub(crate) const ROOT: u32 = 4_294_967_294;

// A traversal, in words that the caller lends: the link of each bucket, and the queue of those that were seen, with its
// head, where the next bucket is, and its end. Five contracts say that the shape stays, since a method that is lent a struct by
// `&mut` may write each of its fields; kept outside the struct, the shape would be a parameter of each, and the lengths too.
#[derive(Drop)]
pub(crate) struct Traversal<'w> {
    pub(crate) shape: Shape,
    pub(crate) links: &'w mut [u32],
    queue: &'w mut [u32],
    head: usize,
    end: usize,
    ghost linked: { length links.now ≡ shape.buckets },
    ghost wide: { shape.buckets ≤ length queue.now },
}

impl<'w> Traversal<'w> {
    ghost use Rattle.seats.specs.Shapes.{size};
    ghost use Rattle.moves.specs.Queue.{unseen, Visit, Begun};
    ghost use Rattle.moves.specs.Tree.{Reached};
    ghost use Rattle.moves.specs.Traversal.{Expanding, Stopped, Stuck, Found};

    // A traversal that has not begun.
    pub(crate) fn new(shape: Shape, words: &'w mut [u32]) -> Traversal<'w>
        requires { 2 * shape.buckets ≤ length words.old }
        ensures { result.shape ≡ shape }
    {
        let (links, queue) = words.split_at_mut(shape.buckets as usize);
        Traversal {
            shape,
            links,
            queue,
            head: 0,
            end: 0,
        }
    }

    // Begins with the two buckets of the fingerprint alone.
    fn begin(&mut self, fingerprint: u32)
        requires { fingerprint < (size self.old.shape).range }
        ensures shape { self.new.shape ≡ self.old.shape }
        ensures head { self.new.head ≡ 0 }
        ensures begun { Begun (size self.old.shape) fingerprint self.new.links.now self.new.queue.now self.new.end }
    {
        self.links.fill(UNSEEN);
        self.head = 0;
        self.end = 0;
        let shape = self.shape;
        self.visit(shape.place(fingerprint, true).bucket, ROOT);
        self.visit(shape.place(fingerprint, false).bucket, ROOT);
    }

    // Puts the bucket at the end of the queue, with this link, unless it was seen.
    fn visit(&mut self, bucket: u32, link: u32)
        requires inside { bucket < self.old.shape.buckets }
        requires room { slice_index self.old.links.now bucket ≡ unseen → self.old.end < length self.old.queue.now }
        ensures shape { self.new.shape ≡ self.old.shape }
        ensures head { self.new.head ≡ self.old.head }
        ensures visit { Visit self.old.links.now self.old.queue.now self.old.end bucket link self.new.links.now self.new.queue.now self.new.end }
    {
        let i = bucket as usize;
        if self.links[i] == UNSEEN {
            self.links[i] = link;
            self.queue[self.end] = bucket;
            self.end += 1;
        }
    }

    // The bucket at the queue's head, which moves on, unless the queue is at its end.
    fn next_bucket(&mut self) -> Option<u32>
        requires { self.old.end ≤ length self.old.queue.now }
        ensures shape { self.new.shape ≡ self.old.shape }
        ensures links { self.new.links.now ≡ self.old.links.now }
        ensures queue { self.new.queue.now ≡ self.old.queue.now }
        ensures end { self.new.end ≡ self.old.end }
        ensures next { MatchOption result
            ((self.old.end ≤ self.old.head) × (self.new.head ≡ self.old.head))
            (λ bucket. (self.old.head < self.old.end) × (self.new.head ≡ self.old.head + 1) × (bucket ≡ slice_index self.old.queue.now self.old.head)) }
    {
        if self.head >= self.end {
            return None;
        }
        let bucket = self.queue[self.head];
        self.head += 1;
        Some(bucket)
    }

    // Goes through the rows in use of the bucket that has just left the queue, once: the first empty seat ends the traversal,
    // and the other bucket of each entry is visited. Memory that shows no entries may carry what is no bucket: that is passed
    // over.
    fn expand<T: Tally + Copy>(&mut self, seats: &[Seat<T>], bucket: u32) -> Option<usize>
        requires sizes { length seats.now ≡ self.old.shape.buckets * self.old.shape.most }
        requires left { (self.old.head - 1 < self.old.end) × (bucket ≡ slice_index self.old.queue.now (self.old.head - 1)) }
        requires reached { Reached T.Tally.kind.empty seats.now (size self.old.shape) self.old.links.now self.old.queue.now (self.old.head - 1) self.old.end }
        ensures shape { self.new.shape ≡ self.old.shape }
        ensures head { self.new.head ≡ self.old.head }
        ensures expanded { MatchOption result
            (Expanding T.Tally.kind.empty seats.now (size self.old.shape) bucket self.old.shape.rows
            self.old.links.now self.old.queue.now (self.old.head - 1) self.old.end self.new.links.now self.new.queue.now self.new.end)
            (λ i. Stopped T.Tally.kind.empty seats.now (size self.old.shape) bucket i
            self.old.links.now self.old.queue.now (self.old.head - 1) self.old.end self.new.links.now self.new.queue.now) }
    {
        let shape = self.shape;
        let first = (bucket * shape.most) as usize;
        let rows = &seats[first..first + shape.rows as usize];
        for (row, seat) in rows.iter().enumerate() {
            let i = first + row;
            if seat.tally.is_empty() {
                return Some(i);
            }
            if seat.carry < shape.buckets {
                self.visit(seat.carry, i as u32);
            }
        }
        None
    }

    // The nearest free seat to which a chain of moves leads from the buckets of the fingerprint, with the chain in the links.
    pub(crate) fn nearest_free<T: Tally + Copy>(
        &mut self,
        seats: &[Seat<T>],
        fingerprint: u32,
    ) -> Option<usize>
        requires sizes { length seats.now ≡ self.old.shape.buckets * self.old.shape.most }
        requires below { fingerprint < (size self.old.shape).range }
        ensures shape { self.new.shape ≡ self.old.shape }
        ensures found { MatchOption result
            (Stuck T.Tally.kind.empty seats.now (size self.old.shape) fingerprint self.new.links.now)
            (λ i. Found T.Tally.kind.empty seats.now (size self.old.shape) fingerprint self.new.links.now i) }
    {
        self.begin(fingerprint);
        while let Some(bucket) = self.next_bucket() {
            if let Some(free) = self.expand(seats, bucket) {
                return Some(free);
            }
        }
        None
    }
}
