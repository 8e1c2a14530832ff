ghost use Rattle.std.specs.Prelude.{◌≡◌, Ok as Sound};
ghost use Rattle.paper.specs.Checks.{paper_checked};

use paper::header::Header;
use seats::shape::Shape;

// The bytes of a paper that was found sound, and its header.
#[derive(Clone, Copy)]
pub(crate) struct SoundPaper<'p> {
    pub(crate) bytes: &'p [u8],
    pub(crate) header: Header,
    ghost sound: { paper_checked bytes.now ≡ Sound header },
}

impl SoundPaper<'_> {
    ghost use Rattle.std.specs.Prelude.{◌*◌, ◌≤◌};
    ghost use Rattle.seats.specs.Shapes.{size};
    ghost use Rattle.run.specs.Printed.{size_of};

    // The shape of the table that the header asks for, with at most as many seats as a run has.
    pub(crate) fn shape(&self) -> Shape
        ensures size { size result ≡ size_of self.now.header }
        ensures few { result.buckets * result.most ≤ 2048 }
    {
        Shape {
            buckets: u32::from(self.header.buckets),
            most: u32::from(self.header.most),
            rows: u32::from(self.header.rows),
        }
    }
}
