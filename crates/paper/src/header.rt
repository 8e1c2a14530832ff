ghost use Rattle.std.specs.Prelude.{◌≡◌, ◌≤◌, length};
ghost use Rattle.paper.specs.Headers.{header_of, header_fits, is_rule, is_kind, shape_fits};

use numbers::little_endian::read;
use rules::fnv::Fnv;
use rules::plain_number::PlainNumber;
use rules::rule::Rule;
use tallies::replicas::Replicas;
use tallies::tally::Tally;
use tallies::traffic::Traffic;

// What a paper says of its table: buckets, rows in use at the start, most rows, and the numbers of its rule and its kind.
// It may break the limits of a header, and name no rule or kind: so these are numbers, matched against those that the rules
// and kinds give.
#[derive(Clone, Copy, PartialEq, Eq, Debug)]
pub struct Header {
    pub buckets: u16,
    pub rows: u8,
    pub most: u8,
    pub rule: u8,
    pub kind: u8,
}

impl Header {
    // The header in the first bytes.
    pub(crate) fn read(bytes: &[u8]) -> Header
        requires { 6 ≤ length bytes.now }
        ensures { result ≡ header_of bytes.now }
    {
        Header {
            buckets: read(bytes, 0),
            rows: bytes[2],
            most: bytes[3],
            rule: bytes[4],
            kind: bytes[5],
        }
    }

    // The fields keep their limits, and the rule and the kind are known.
    #[tactic(auto, unfolding(crate::specs::Headers::header_fits))]
    pub fn fits(self) -> bool
        ensures { result ≡ header_fits self }
    {
        self.shape_fits() && is_rule(self.rule) && is_kind(self.kind)
    }

    // Whether buckets, rows and most rows keep a paper's limits.
    fn shape_fits(self) -> bool
        ensures { result ≡ shape_fits self }
    {
        (2..=256).contains(&self.buckets) && self.most <= 8 && (1..=self.most).contains(&self.rows)
    }
}

// Whether the number names a rule. Rules and tallies are two traits: so this and `is_kind` are two.
fn is_rule(number: u8) -> bool
    ensures { result ≡ is_rule number }
{
    [PlainNumber::rule_number(), Fnv::rule_number()].contains(&number)
}

// Whether the number names a kind of tally.
fn is_kind(number: u8) -> bool
    ensures { result ≡ is_kind number }
{
    [Replicas::kind_number(), Traffic::kind_number()].contains(&number)
}
