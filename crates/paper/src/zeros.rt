ghost use Rattle.std.specs.Prelude.{◌≡◌};
ghost use Rattle.paper.specs.Records.{first_nonzero};

// The place of the first byte that is not zero, if there is one.
pub(crate) fn first_nonzero(bytes: &[u8]) -> Option<usize>
    ensures { result ≡ first_nonzero 0 bytes.now }
{
    bytes.iter().position(|byte| *byte != 0)
}
