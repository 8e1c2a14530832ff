// What is printed of a paper.
ghost use Rattle.std.specs.Prelude.{◌≡◌, ◌≤◌, length, if◌then◌else◌, Ok as Done, Err as NotDone, nat_lt};
ghost use Rattle.numbers.specs.Buffers.{put};
ghost use Rattle.paper.specs.Checks.{paper_checked};
ghost use Rattle.paper.specs.Faults.{figures_of};
ghost use Rattle.paper.specs.Reading.{paper_records};
ghost use Rattle.run.specs.declared.fault.RunFault.TheVariants.{Room as NoRoom};
ghost use Rattle.run.specs.Lines.{fault_line};
ghost use Rattle.run.specs.Printed.{printed};
ghost use Rattle.run.specs.Runs.{Ran, Wrote};

use crate::fault::RunFault;
use crate::lines::Printer;
use crate::sound::SoundPaper;
use crate::table_of::write_by_kind;
use paper::check::check_paper;
use paper::fault::PaperFault;

// The most bytes that are printed of a paper: 1,900 lines of 36 bytes.
pub const MOST_PRINTED: usize = 68_400;

// The same number, promised by a contract. A shorter buffer is refused.
pub fn most_printed() -> usize
    ensures { result ≡ 68400 }
{
    MOST_PRINTED
}

// Runs a paper on a table of its own, and writes a line for each call. Gives how many bytes they are. Where there is no room,
// or the paper is not sound, the buffer stays as it was.
fn print_sound(paper: &[u8], out: &mut [u8]) -> Result<usize, RunFault>
    ensures { Ran out.old (paper_checked paper.now) (paper_records paper.now) result out.new }
{
    let out = out.first_chunk_mut().ok_or(RunFault::Room)?;
    let header = check_paper(paper)?;
    let paper = SoundPaper {
        bytes: paper,
        header,
    };
    Ok(write_by_kind(&paper, out))
}

// Writes the line of a paper's fault, and gives how many bytes it is.
fn write_fault(fault: PaperFault, out: &mut [u8]) -> usize
    requires { 14 ≤ length out.old }
    ensures { Wrote out.old (fault_line (figures_of fault)) result out.new }
{
    let mut printer = Printer { out, at: 0 };
    printer.print_fault(fault.figures());
    printer.at
}

// Runs a paper on a table of its own, and prints a line for each call into the buffer, or the one line of the paper's fault.
// Gives how many bytes are printed; those behind them stay. A buffer shorter than the most is refused, and stays as it was.
pub fn print_paper(paper: &[u8], out: &mut [u8]) -> Result<usize, RunFault>
    ensures answer { result ≡ (if nat_lt (length out.old) 68400 then NotDone NoRoom else Done (length (printed paper.now))) }
    ensures after { out.new ≡ (if nat_lt (length out.old) 68400 then out.old else put out.old 0 (printed paper.now)) }
{
    match print_sound(paper, out) {
        Ok(n) => Ok(n),
        Err(RunFault::Room) => Err(RunFault::Room),
        Err(RunFault::InPaper(fault)) => Ok(write_fault(fault, out)),
    }
}
