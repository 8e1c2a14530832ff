// All calls of a paper, and their lines.
ghost use Rattle.std.specs.Prelude.{◌≡◌, ◌*◌, length};
ghost use Rattle.seats.specs.Shapes.{size};
ghost use Rattle.book.specs.Books.{blank};
ghost use Rattle.paper.specs.Reading.{paper_records};
ghost use Rattle.run.specs.Printed.{lines};
ghost use Rattle.run.specs.Runs.{Wrote};

use crate::call::{WORDS, call_line};
use crate::figured::Figured;
use crate::lines::Printer;
use crate::print::MOST_PRINTED;
use crate::sound::SoundPaper;
use paper::reader::Reader;
use rules::rule::Rule;
use seats::seat::Seat;
use seats::shape::Shape;
use table::table::Table;

// Makes the calls of a sound paper on a table of these seats, writes their lines from the buffer's start on, and gives how many
// bytes they are.
pub(crate) fn write_lines<T: Figured + Copy, R: Rule>(
    seats: &mut [Seat<T>],
    shape: Shape,
    rule: &R,
    paper: &SoundPaper<'_>,
    out: &mut [u8; MOST_PRINTED],
) -> usize
    requires { shape.buckets * shape.most ≡ length seats.old }
    ensures { Wrote out.old (lines T.Tally.kind (R.Rule.meaning rule.now) T.Figured.shown T.Figured.made (blank (size shape)) 1 (paper_records paper.now.bytes.now)) result out.new }
{
    let mut table = Table::open(seats, shape);
    let mut printer = Printer { out, at: 0 };
    let mut words = [0; WORDS];
    for (i, record) in Reader::new(paper.bytes).enumerate() {
        let line = call_line(&mut table, rule, &record, &mut words, i as u64 + 1);
        printer.print_line(line);
    }
    printer.at
}
