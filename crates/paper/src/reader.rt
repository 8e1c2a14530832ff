// A cursor over a lent paper, which walks its bytes in place.
ghost use Rattle.std.specs.Prelude.{◌≡◌, ◌+◌, ◌*◌, ◌/◌, ◌<◌, ◌≤◌, true, length, is_ok, slice_index};
ghost use Rattle.paper.specs.Checks.{paper_checked};

mod walk;

// The place of the record that comes next: its block, and the record in it.
#[derive(Drop)]
pub struct Reader<'a> {
    paper: &'a [u8],
    block: usize,
    record: usize,
    ghost sound: { is_ok (paper_checked paper.now) ≡ true },
    ghost inside: { block ≤ length paper.now / 512 },
    ghost within: { block < length paper.now / 512 → «record» < slice_index paper.now (512 * block + 6) },
}
