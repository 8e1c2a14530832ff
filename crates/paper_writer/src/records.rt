ghost use Rattle.std.specs.Prelude.{◌≤◌, length};

use paper::record::Record;

// The records to be written, no more than a paper has.
#[derive(Clone, Copy)]
pub(crate) struct Records<'r> {
    pub(crate) all: &'r [Record],
    ghost few: { length all.now ≤ 1900 },
}
