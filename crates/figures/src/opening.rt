// Which tables open, and which keys they take.
use crate::tell::tell_number;
use anyhow::anyhow;
use book::answer::number_of;
use rules::plain_number::PlainNumber;
use seats::seat::Seat;
use seats::shape::Shape;
use table::table::Table;
use tallies::replicas::Replicas;

// What is opened: buckets, most rows, rows, and the seats lent; and the number of the refusal, or 0.
const OPENINGS: [(&str, [u32; 3], usize, u64); 7] = [
    ("opening 1 bucket", [1, 1, 1], 1, 1),
    ("opening 2 buckets", [2, 1, 1], 2, 0),
    ("opening 4096 buckets", [4096, 1, 1], 4096, 0),
    ("opening 4097 buckets", [4097, 1, 1], 4097, 1),
    ("opening 9 rows", [2, 9, 1], 18, 2),
    ("opening 2 rows of 1", [2, 1, 2], 2, 2),
    ("opening on a seat too few", [2, 1, 1], 1, 3),
];

// The number that a look-up of this key is refused with, or 0.
fn key_number(key: &[u8]) -> anyhow::Result<u64> {
    let mut seats = [Seat::<Replicas>::empty(); 2];
    let shape = Shape::check(2, 1, 1, seats.len()).map_err(|_| anyhow!("the table does not open"))?;
    let table = Table::open(&mut seats, shape);
    Ok(u64::from(number_of(&table.look_up(&PlainNumber, key))))
}

pub fn tell_all(rt: &HostRuntime) -> anyhow::Result<()> {
    for (what, [buckets, most, rows], seats, expected) in OPENINGS {
        let opened = Shape::check(buckets, most, rows, seats);
        tell_number(rt, what, expected, u64::from(number_of(&opened)))?;
    }
    tell_number(rt, "a key of 64 bytes", 0, key_number(&[1; 64])?)?;
    tell_number(rt, "a key of 65 bytes", 5, key_number(&[1; 65])?)
}
