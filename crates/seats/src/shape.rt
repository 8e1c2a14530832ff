ghost use Rattle.std.specs.Prelude.{◌≤◌};

mod checked;

// The numbers of a table, within their limits: its buckets, the rows that it has at most, and the rows in use.
#[derive(Clone, Copy)]
pub struct Shape {
    pub buckets: u32,
    pub most: u32,
    pub rows: u32,
    ghost ok: { (2 ≤ buckets) × (buckets ≤ 4096) × (1 ≤ rows) × (rows ≤ most) × (most ≤ 8) },
}
