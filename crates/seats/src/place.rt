ghost use Rattle.std.specs.Prelude.{◌≡◌, ◌<◌};
ghost use Rattle.seats.specs.Places.{place_of, given_back};

use crate::shape::Shape;

// A fingerprint's place in a bucket: at flag true the bucket is its quotient by the buckets and the carry its remainder,
// at flag false the bucket is the remainder and the carry the quotient. A flag and no enum, since these are the fields that a
// seat has by a rule of the project (docs/TABLE.md).
#[derive(Clone, Copy, PartialEq, Eq, Debug)]
pub struct Place {
    pub bucket: u32,
    pub carry: u32,
    pub flag: bool,
}

impl Shape {
    // The place of a fingerprint at this flag. It gives the fingerprint back.
    pub fn place(self, fingerprint: u32, flag: bool) -> Place
        ensures value { result ≡ place_of self.buckets fingerprint flag }
        ensures back { given_back self.buckets result ≡ fingerprint }
    {
        let quotient = fingerprint / self.buckets;
        let remainder = fingerprint % self.buckets;
        if flag {
            Place {
                bucket: quotient,
                carry: remainder,
                flag,
            }
        } else {
            Place {
                bucket: remainder,
                carry: quotient,
                flag,
            }
        }
    }

    // The fingerprint that a place gives back. The place is that fingerprint's, if its bucket and carry are buckets.
    pub fn fingerprint(self, place: Place) -> u64
        ensures value { result ≡ given_back self.buckets place }
        ensures place { place.bucket < self.buckets → place.carry < self.buckets → place_of self.buckets result place.flag ≡ place }
    {
        let buckets = u64::from(self.buckets);
        if place.flag {
            u64::from(place.bucket) * buckets + u64::from(place.carry)
        } else {
            u64::from(place.carry) * buckets + u64::from(place.bucket)
        }
    }
}
