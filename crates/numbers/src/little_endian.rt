// Unsigned numbers of 2, 4 and 8 bytes, least byte first, at a place of a slice.
ghost use Rattle.std.specs.Prelude.{◌≡◌, ◌+◌, ◌≤◌, ℕ, length};
ghost use Rattle.numbers.specs.Buffers.{put};
ghost use Rattle.numbers.specs.LittleEndian.{number, number_at, bytes_of};

// An unsigned number of so many bytes.
pub trait LittleEndian {
    const WIDTH: usize;

    ghost WIDTH: { ℕ };

    // What it is as a number.
    ghost value: { Self → ℕ };

    // The number in just its bytes.
    fn from_bytes(bytes: &[u8]) -> Self
        requires { length bytes.now ≡ WIDTH }
        ensures { value result ≡ number bytes.now };

    // Writes just its bytes.
    fn put_bytes(self, bytes: &mut [u8])
        requires { length bytes.old ≡ WIDTH }
        ensures { bytes.new ≡ bytes_of WIDTH (value self) };
}

// Three impls that differ only in type and width: a rule of the project, since an impl by a macro of its own is refused.
impl LittleEndian for u16 {
    const WIDTH: usize = 2;

    ghost WIDTH = { 2 };

    ghost value = { λ n. n };

    fn from_bytes(bytes: &[u8]) -> u16 {
        u16::from_le_bytes(*bytes.as_array().unwrap())
    }

    fn put_bytes(self, bytes: &mut [u8]) {
        bytes.copy_from_slice(&u16::to_le_bytes(self));
    }
}

impl LittleEndian for u32 {
    const WIDTH: usize = 4;

    ghost WIDTH = { 4 };

    ghost value = { λ n. n };

    fn from_bytes(bytes: &[u8]) -> u32 {
        u32::from_le_bytes(*bytes.as_array().unwrap())
    }

    fn put_bytes(self, bytes: &mut [u8]) {
        bytes.copy_from_slice(&u32::to_le_bytes(self));
    }
}

impl LittleEndian for u64 {
    const WIDTH: usize = 8;

    ghost WIDTH = { 8 };

    ghost value = { λ n. n };

    fn from_bytes(bytes: &[u8]) -> u64 {
        u64::from_le_bytes(*bytes.as_array().unwrap())
    }

    fn put_bytes(self, bytes: &mut [u8]) {
        bytes.copy_from_slice(&u64::to_le_bytes(self));
    }
}

// The number at a place of the slice.
pub fn read<N: LittleEndian>(bytes: &[u8], place: usize) -> N
    requires { place + N.WIDTH ≤ length bytes.now }
    ensures { N.value result ≡ number_at N.WIDTH bytes.now place }
{
    N::from_bytes(&bytes[place..place + N::WIDTH])
}

// Writes the number at a place of the slice.
pub fn write<N: LittleEndian>(bytes: &mut [u8], place: usize, n: N)
    requires { place + N.WIDTH ≤ length bytes.old }
    ensures { bytes.new ≡ put bytes.old place (bytes_of N.WIDTH (N.value n)) }
{
    n.put_bytes(&mut bytes[place..place + N::WIDTH]);
}
