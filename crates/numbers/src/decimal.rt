ghost use Rattle.std.specs.Prelude.{◌≡◌, ◌+◌, ◌≤◌, length, decimal};
ghost use Rattle.numbers.specs.Buffers.{put};

// Writes the decimal digits of `n` into the buffer from `place` on, and gives the place after them. By recursion: digits that a
// library formats would have to be copied by a length known only then, which asks for `memcpy` from outside.
pub fn write_decimal(buffer: &mut [u8], place: usize, n: u64) -> usize
    requires { place + length (decimal n) ≤ length buffer.old }
    ensures next { result ≡ place + length (decimal n) }
    ensures after { buffer.new ≡ put buffer.old place (decimal n) }
{
    if n < 10 {
        buffer[place] = b'0' + n as u8;
        return place + 1;
    }
    let last = write_decimal(buffer, place, n / 10);
    buffer[last] = b'0' + (n % 10) as u8;
    last + 1
}
