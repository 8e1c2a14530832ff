// Papers: the nine lines, large papers, and one damaged paper for each fault.
use crate::samples::{LARGE, NINE, large_paper, nine_calls};
use crate::tell::{tell_lines, tell_number};
use anyhow::anyhow;
use blocks::check::write_check;
use numbers::fnv::fnv1a;
use paper::header::Header;
use paper_writer::write::write_paper;
use run::print::{MOST_PRINTED, print_paper};

// A byte of the sample that is changed: what that is, its place, the byte, and the line of its fault.
const DAMAGES: [(&str, usize, u8, &str); 6] = [
    ("a header with one bucket", 0, 1, "F 15 0 0\n"),
    ("a header with rule 3", 4, 3, "F 15 0 0\n"),
    ("a first record with call 7", 8, 7, "F 16 0 1\n"),
    ("a look-up with packets", 230, 1, "F 16 0 9\n"),
    ("a byte past the count", 242, 1, "F 16 0 10\n"),
    ("a byte past the records", 503, 1, "F 16 0 0\n"),
];

// The large papers, by their header: how many bytes are printed, and their FNV-1a number.
const LARGE_PAPERS: [(&str, Header, u64, u64); 4] = [
    (
        "1900 calls by plain numbers with replicas",
        LARGE,
        21610,
        0x228334abac47dae6,
    ),
    (
        "1900 calls by FNV-1a with replicas",
        Header { rule: 2, ..LARGE },
        21605,
        0xfb4a14fd71960c1e,
    ),
    (
        "1900 calls by plain numbers with traffic",
        Header { kind: 2, ..LARGE },
        25510,
        0x19a4393528dcb2a0,
    ),
    (
        "1900 calls by FNV-1a with traffic",
        Header {
            rule: 2,
            kind: 2,
            ..LARGE
        },
        25517,
        0x3e24f571e0a03f9b,
    ),
];

// What is printed of a paper.
fn printed(rt: &HostRuntime, paper: &[u8]) -> anyhow::Result<Vec<u8>> {
    let mut out = vec![in rt.alloc(); 0; MOST_PRINTED]?;
    let many = print_paper(paper, out.as_mut_slice()).map_err(|_| anyhow!(
        "there is no room to print"
    ))?;
    out.truncate(many);
    Ok(out)
}

// The sample's bytes.
fn nine_paper() -> anyhow::Result<[u8; 512]> {
    let mut paper = [0; 512];
    write_paper(NINE, &nine_calls(), &mut paper).map_err(|_| anyhow!("the sample is not written"))?;
    Ok(paper)
}

// The sample with one byte changed, and its check made right again.
fn damaged(at: usize, byte: u8) -> anyhow::Result<[u8; 512]> {
    let mut paper = nine_paper()?;
    if at < 512 {
        paper[at] = byte;
    }
    write_check(&mut paper);
    Ok(paper)
}

fn tell_fault(rt: &HostRuntime, what: &str, expected: &[u8], paper: &[u8]) -> anyhow::Result<()> {
    let came = printed(rt, paper)?;
    tell_lines(rt, what, expected, came.as_slice())
}

fn tell_faults(rt: &HostRuntime) -> anyhow::Result<()> {
    let mut paper = nine_paper()?;
    tell_fault(rt, "an empty paper", b"F 13 0 0\n", &paper[0..0])?;
    tell_fault(rt, "a paper that is cut", b"F 13 0 0\n", &paper[0..511])?;
    paper[504] ^= 1;
    tell_fault(rt, "a wrong check", b"F 14 0 0\n", &paper)?;
    for (what, at, byte, expected) in DAMAGES {
        tell_fault(rt, what, expected.as_bytes(), &damaged(at, byte)?)?;
    }
    Ok(())
}

// A large paper: how many bytes are printed, and their FNV-1a number.
fn tell_large(
    rt: &HostRuntime,
    what: &str,
    header: Header,
    long: u64,
    check: u64,
) -> anyhow::Result<()> {
    let paper = large_paper(rt, header)?;
    let came = printed(rt, paper.as_slice())?;
    print!(rt; "bytes printed of ")?;
    tell_number(rt, what, long, came.len() as u64)?;
    print!(rt; "their FNV-1a number, ")?;
    tell_number(rt, what, check, fnv1a(came.as_slice()))
}

pub fn tell_all(rt: &HostRuntime) -> anyhow::Result<()> {
    let paper = nine_paper()?;
    let came = printed(rt, &paper)?;
    let expected =
        b"1 0 1 0\n2 0 2 0\n3 8 0 0\n4 0 2 2\n5 0 1 0\n6 12 2 3\n7 0 0 0\n8 0 1 2\n9 0 1 0\n";
    tell_lines(rt, "nine calls", expected, came.as_slice())?;
    tell_faults(rt)?;
    for (what, header, long, check) in LARGE_PAPERS {
        tell_large(rt, what, header, long, check)?;
    }
    Ok(())
}
