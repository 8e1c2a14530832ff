ghost use Rattle.std.specs.Prelude.{◌≡◌};
ghost use Rattle.paper.specs.Records.{code_of, Decodes, takes_amount, takes_key, amount_fits, key_fits, octets_fit, named_record, record_fits, Held};

use crate::layout::RECORD;
use crate::zeros::first_nonzero;
use numbers::little_endian::read;
use tallies::tally::Tally;

// What a record asks of the table.
#[derive(Clone, Copy, PartialEq, Eq, Debug)]
pub enum Call {
    Post = 1,
    Reverse = 2,
    Erase = 3,
    LookUp = 4,
    Widen = 5,
    Narrow = 6,
}

// A code that names no call.
#[derive(Clone, Copy, PartialEq, Eq, Debug)]
pub struct UnknownCall(pub u8);

impl TryFrom<u8> for Call {
    type Error = UnknownCall;

    ghost try_from_gives = { Decodes };

    fn try_from(code: u8) -> Result<Call, UnknownCall> {
        match code {
            1 => Ok(Call::Post),
            2 => Ok(Call::Reverse),
            3 => Ok(Call::Erase),
            4 => Ok(Call::LookUp),
            5 => Ok(Call::Widen),
            6 => Ok(Call::Narrow),
            _ => Err(UnknownCall(code)),
        }
    }
}

impl Call {
    // The byte that names the call in a paper.
    pub fn code(self) -> u8
        ensures { result ≡ code_of self }
    {
        self as u8
    }

    // Whether the call has packets and octets.
    fn takes_amount(self) -> bool
        ensures { result ≡ takes_amount self }
    {
        match self {
            Call::Post | Call::Reverse => true,
            Call::Erase | Call::LookUp | Call::Widen | Call::Narrow => false,
        }
    }

    // Whether the call has a key.
    fn takes_key(self) -> bool
        ensures { result ≡ takes_key self }
    {
        match self {
            Call::Post | Call::Reverse | Call::Erase | Call::LookUp => true,
            Call::Widen | Call::Narrow => false,
        }
    }
}

// A call with its key and its amounts. It may have what its call or the paper's kind does not take.
#[derive(Clone, Copy)]
pub struct Record {
    pub call: Call,
    pub key: [u8; 13],
    pub packets: u32,
    pub octets: u64,
}

impl Record {
    // The record in 26 bytes, if the first names a call.
    pub(crate) fn read(part: &[u8; RECORD]) -> Option<Record>
        ensures { result ≡ named_record part.now }
    {
        let call = Call::try_from(part[0]).ok()?;
        let mut key = [0; 13];
        key.copy_from_slice(&part[1..14]);
        Some(Record {
            call,
            key,
            packets: read(part, 14),
            octets: read(part, 18),
        })
    }

    // Whether packets and octets are zero where the call takes none.
    fn amount_fits(self) -> bool
        ensures { result ≡ amount_fits self }
    {
        self.call.takes_amount() || self.packets == 0 && self.octets == 0
    }

    // Whether the key is zero where the call takes none.
    fn key_fits(self) -> bool
        ensures { result ≡ key_fits self }
    {
        self.call.takes_key() || first_nonzero(&self.key).is_none()
    }

    // Whether there are no octets in a paper of replicas.
    fn octets_fit(self, kind: u8) -> bool
        ensures { result ≡ octets_fit kind self }
    {
        kind != <tallies::replicas::Replicas as Tally>::kind_number() || self.octets == 0
    }

    // What the call does not take is zero, and a paper of replicas has no octets.
    #[tactic(auto, unfolding(crate::specs::Records::record_fits))]
    pub fn fits(self, kind: u8) -> bool
        ensures value { result ≡ record_fits kind self }
        ensures held { Held self }
    {
        self.amount_fits() && self.key_fits() && self.octets_fit(kind)
    }
}
