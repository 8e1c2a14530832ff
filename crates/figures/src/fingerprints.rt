// The published vectors of FNV-1a.
use crate::tell::tell_number;
use numbers::fnv::fnv1a;

// What is hashed, and its published number.
const VECTORS: [(&str, u64); 12] = [
    ("", 0xcbf29ce484222325),
    ("a", 0xaf63dc4c8601ec8c),
    ("b", 0xaf63df4c8601f1a5),
    ("c", 0xaf63de4c8601eff2),
    ("d", 0xaf63d94c8601e773),
    ("e", 0xaf63d84c8601e5c0),
    ("f", 0xaf63db4c8601ead9),
    ("fo", 0x08985907b541d342),
    ("foo", 0xdcb27518fed9d577),
    ("foob", 0xdd120e790c2512af),
    ("fooba", 0xcac165afa2fef40a),
    ("foobar", 0x85944171f73967e8),
];

pub fn tell_all(rt: &HostRuntime) -> anyhow::Result<()> {
    for (text, number) in VECTORS {
        print!(rt; "FNV-1a of '{text}'")?;
        tell_number(rt, "", number, fnv1a(text.as_bytes()))?;
    }
    Ok(())
}
