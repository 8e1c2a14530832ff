// The table that a paper's header asks for: its shape, its rule, and its kind with the seats.
ghost use Rattle.std.specs.Prelude.{◌≡◌, length};
ghost use Rattle.tallies.specs.Replicas.{replicas_kind};
ghost use Rattle.tallies.specs.Traffic.{traffic_kind};
ghost use Rattle.book.specs.Books.{blank};
ghost use Rattle.paper.specs.Reading.{paper_records};
ghost use Rattle.run.specs.Figures.{replicas_shown, replicas_made, traffic_shown, traffic_made};
ghost use Rattle.run.specs.Printed.{lines, all_lines, rule_of, size_of};
ghost use Rattle.run.specs.Runs.{Wrote};

use crate::calls::write_lines;
use crate::figured::Figured;
use crate::print::MOST_PRINTED;
use crate::sound::SoundPaper;
use rules::fnv::Fnv;
use rules::plain_number::PlainNumber;
use rules::rule::Rule;
use seats::seat::Seat;
use tallies::replicas::Replicas;
use tallies::tally::Tally;
use tallies::traffic::Traffic;

// The seats of the largest table that a header may ask for. They lie in an array, since a run takes no memory from the heap.
const SEATS: usize = 2048;

// The lines of a sound paper by its header's rule, on these seats. They are a slice: of an array of a generic kind's seats no
// part is lent, since nothing bounds how large they are.
fn write_on<T: Figured + Copy>(
    seats: &mut [Seat<T>],
    paper: &SoundPaper<'_>,
    out: &mut [u8; MOST_PRINTED],
) -> usize
    requires { length seats.old ≡ 2048 }
    ensures { Wrote out.old (lines T.Tally.kind (rule_of paper.now.header) T.Figured.shown T.Figured.made (blank (size_of paper.now.header)) 1 (paper_records paper.now.bytes.now)) result out.new }
{
    let shape = paper.shape();
    let seats = &mut seats[..shape.seats()];
    // The rule is a type parameter of all that follows, so the header's number chooses one call of two.
    if paper.header.rule == <PlainNumber as Rule>::rule_number() {
        write_lines(seats, shape, &PlainNumber, paper, out)
    } else {
        write_lines(seats, shape, &Fnv, paper, out)
    }
}

// The same on seats of its own, of replicas. A function of each kind: in one for both, the seats of both are filled for every paper;
// and a generic one would need seats whose size in memory is bounded.
fn write_replicas(paper: &SoundPaper<'_>, out: &mut [u8; MOST_PRINTED]) -> usize
    ensures { Wrote out.old (lines replicas_kind (rule_of paper.now.header) replicas_shown replicas_made (blank (size_of paper.now.header)) 1 (paper_records paper.now.bytes.now)) result out.new }
{
    write_on(&mut [Seat::<Replicas>::empty(); SEATS], paper, out)
}

// And of traffic.
fn write_traffic(paper: &SoundPaper<'_>, out: &mut [u8; MOST_PRINTED]) -> usize
    ensures { Wrote out.old (lines traffic_kind (rule_of paper.now.header) traffic_shown traffic_made (blank (size_of paper.now.header)) 1 (paper_records paper.now.bytes.now)) result out.new }
{
    write_on(&mut [Seat::<Traffic>::empty(); SEATS], paper, out)
}

// The lines of a sound paper in its header's kind, on seats of its own.
#[tactic(auto, unfolding(crate::specs::Printed::all_lines))]
pub(crate) fn write_by_kind(paper: &SoundPaper<'_>, out: &mut [u8; MOST_PRINTED]) -> usize
    ensures { Wrote out.old (all_lines paper.now.header (paper_records paper.now.bytes.now)) result out.new }
{
    // The kind is a type parameter of all that follows, too.
    if paper.header.kind == <Replicas as Tally>::kind_number() {
        write_replicas(paper, out)
    } else {
        write_traffic(paper, out)
    }
}
