// Reads a paper from standard input, runs it, and prints a line for each of its calls, or the line of its fault.
#![tactic(auto)]

use blocks::block::longest_paper;
use run::print::{most_printed, print_paper};
use std::io;
use std::io::{Read, Write};

// Reads one byte more than the longest paper: what has so many is too long already, and the rest need not be read.
fn read_paper(rt: &HostRuntime) -> io::Result<Vec<u8>> {
    let mut paper = Vec::new(rt.alloc());
    rt.stdin()
        .take(longest_paper() as u64 + 1)
        .read_to_end(&mut paper)?;
    Ok(paper)
}

fn main(rt: HostRuntime) -> io::Result<()> {
    let paper = read_paper(&rt)?;
    let mut out = vec![in rt.alloc(); 0; most_printed()]?;
    let printed = print_paper(paper.as_slice(), out.as_mut_slice()).map_err(|_| io::Error::from(
        io::ErrorKind::Other,
    ))?;
    out.truncate(printed);
    rt.stdout().write_all(out.as_slice())
}
