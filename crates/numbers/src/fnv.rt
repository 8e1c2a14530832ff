ghost use Rattle.std.specs.Prelude.{◌≡◌};
ghost use Rattle.numbers.specs.Fnv.{fnv_1a};

// The number of no bytes.
const START: u64 = 14695981039346656037;

// What each byte's step multiplies by.
const PRIME: u64 = 1099511628211;

// The 64-bit FNV-1a number of the bytes.
pub fn fnv1a(bytes: &[u8]) -> u64
    ensures { result ≡ fnv_1a bytes.now }
{
    let mut hash = START;
    for byte in bytes {
        hash = (hash ^ u64::from(*byte)).wrapping_mul(PRIME);
    }
    hash
}
