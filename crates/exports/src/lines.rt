// A paper's lines, for other languages.
ghost use Rattle.std.specs.Prelude.{◌≡◌, length, if◌then◌else◌, nat_lt};
ghost use Rattle.numbers.specs.Buffers.{put};
ghost use Rattle.run.specs.Printed.{printed};

use run::print::print_paper;

// As `print_paper`, and 0 where it refuses, since C has no Result.
#[unsafe(no_mangle)]
pub extern "C" fn sundrilga_print_paper(paper: &[u8], out: &mut [u8]) -> usize
    ensures answer { result ≡ (if nat_lt (length out.old) 68400 then 0 else length (printed paper.now)) }
    ensures after { out.new ≡ (if nat_lt (length out.old) 68400 then out.old else put out.old 0 (printed paper.now)) }
{
    print_paper(paper, out).unwrap_or(0)
}
