ghost use Rattle.std.specs.Prelude.{◌≡◌, ◌*◌, ◌<◌};
ghost use Rattle.std.specs.NonZero.{non_zero_u32_get};
ghost use Rattle.seats.specs.Shapes.{Checked, size};

use super::Shape;
use crate::refusal::Refusal;
use std::num::NonZeroU32;

impl Shape {
    // The shape of these numbers, for a table that is lent so many seats, or what is wrong with them.
    pub fn check(buckets: u32, most: u32, rows: u32, seats: usize) -> Result<Shape, Refusal>
        ensures { Checked buckets most rows seats result }
    {
        if !(2..=4096).contains(&buckets) {
            return Err(Refusal::Buckets);
        }
        if !(1..=8).contains(&most) || !(1..=most).contains(&rows) {
            return Err(Refusal::Rows);
        }
        if seats != (buckets * most) as usize {
            return Err(Refusal::Seats);
        }
        Ok(Shape {
            buckets,
            most,
            rows,
        })
    }

    // Fingerprints are the numbers below this one.
    pub fn range(self) -> NonZeroU32
        ensures { non_zero_u32_get result ≡ (size self).range }
    {
        NonZeroU32::new(self.buckets * (self.buckets - 1)).unwrap()
    }

    // How many seats the table is lent.
    pub fn seats(self) -> usize
        ensures { result ≡ self.buckets * self.most }
    {
        (self.buckets * self.most) as usize
    }
}
