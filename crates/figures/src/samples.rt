// The sample paper of nine calls, and a large paper that is made by a rule.
use anyhow::anyhow;
use paper::header::Header;
use paper::record::{Call, Record};
use paper_writer::write::write_paper;
use tallies::tally::Tally;
use tallies::traffic::Traffic;

// The sample's header.
pub const NINE: Header = Header {
    buckets: 3,
    rows: 1,
    most: 2,
    rule: 1,
    kind: 1,
};

// The calls of the large paper.
const LARGE_CALLS: u32 = 1900;

// The header of a large paper, of plain numbers and replicas: 256 buckets with four rows in use of five.
pub const LARGE: Header = Header {
    buckets: 256,
    rows: 4,
    most: 5,
    rule: 1,
    kind: 1,
};

// A key with a number in its first two bytes.
fn key(number: u32) -> [u8; 13] {
    let [low, high, _, _] = number.to_le_bytes();
    let mut key = [0; 13];
    key[0] = low;
    key[1] = high;
    key
}

fn record(call: Call, number: u32, packets: u32, octets: u64) -> Record {
    Record {
        call,
        key: key(number),
        packets,
        octets,
    }
}

// The sample's calls.
pub fn nine_calls() -> [Record; 9] {
    [
        record(Call::Post, 1, 1, 0),
        record(Call::Post, 3, 2, 0),
        record(Call::Post, 0, 1, 0),
        record(Call::Widen, 0, 0, 0),
        record(Call::Post, 0, 1, 0),
        record(Call::Narrow, 0, 0, 0),
        record(Call::Reverse, 3, 2, 0),
        record(Call::Narrow, 0, 0, 0),
        record(Call::LookUp, 7, 0, 0),
    ]
}

// The number in the key of the call i.
fn number_at(i: u32) -> u32 {
    (i.wrapping_mul(7919).wrapping_add(13)) % 65280
}

// Papers of replicas have no octets.
fn octets_of(traffic: bool, octets: u64) -> u64 {
    if traffic { octets } else { 0 }
}

// The call i of the large paper: posts, some of them near the ceilings, reversals, erasures, look-ups, and now and then
// another row more or less.
fn large_call(i: u32, traffic: bool) -> Record {
    if i % 100 == 98 {
        return record(Call::Widen, 0, 0, 0);
    }
    if i % 100 == 49 {
        return record(Call::Narrow, 0, 0, 0);
    }
    match i % 10 {
        5 => record(
            Call::Post,
            number_at(i.saturating_sub(5)),
            4_294_967_290,
            octets_of(traffic, 999_999_999_999_000),
        ),
        7 => {
            let call = if i % 20 == 7 {
                Call::Erase
            } else {
                Call::LookUp
            };
            record(call, number_at(i.saturating_sub(7)), 0, 0)
        }
        9 => record(
            Call::Reverse,
            number_at(i.saturating_sub(3)),
            i % 5 + 1,
            octets_of(traffic, 40),
        ),
        _ => record(
            Call::Post,
            number_at(i),
            i % 97 + 1,
            octets_of(traffic, u64::from(i % 1500)),
        ),
    }
}

// A paper of 1,900 calls under this header.
pub fn large_paper(rt: &HostRuntime, header: Header) -> anyhow::Result<Vec<u8>> {
    let traffic = header.kind == <Traffic as Tally>::kind_number();
    let records: Vec<Record> = (0..LARGE_CALLS)
        .map(|i| large_call(i, traffic))
        .collect(rt.alloc())?;
    let mut paper = vec![in rt.alloc(); 0; 51200]?;
    write_paper(header, records.as_slice(), paper.as_mut_slice()).map_err(|_| anyhow!(
        "the large paper is not written"
    ))?;
    Ok(paper)
}
