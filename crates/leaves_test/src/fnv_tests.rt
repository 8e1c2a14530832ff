// FNV-1a's published 64-bit numbers, from the list of its authors.
use numbers::fnv::fnv1a;
use std::process::Abort;

fn check_all(rt: &impl Abort, vectors: &[(&str, u64)]) {
    for (text, number) in vectors {
        assert_eq!(rt; fnv1a(text.as_bytes()), *number, "{}", *text);
    }
}

#[test]
fn published_numbers_of_short_text(rt: HostRuntime) {
    check_all(
        &rt,
        &[
            ("", 0xcbf29ce484222325),
            ("a", 0xaf63dc4c8601ec8c),
            ("b", 0xaf63df4c8601f1a5),
            ("c", 0xaf63de4c8601eff2),
            ("d", 0xaf63d94c8601e773),
            ("e", 0xaf63d84c8601e5c0),
            ("f", 0xaf63db4c8601ead9),
            ("fo", 0x08985907b541d342),
            ("foo", 0xdcb27518fed9d577),
            ("foob", 0xdd120e790c2512af),
            ("fooba", 0xcac165afa2fef40a),
            ("foobar", 0x85944171f73967e8),
        ],
    );
}

#[test]
fn published_numbers_of_text_and_a_zero_byte(rt: HostRuntime) {
    check_all(
        &rt,
        &[
            ("\0", 0xaf63bd4c8601b7df),
            ("a\0", 0x089be207b544f1e4),
            ("b\0", 0x08a61407b54d9b5f),
            ("c\0", 0x08a2ae07b54ab836),
            ("d\0", 0x0891b007b53c4869),
            ("e\0", 0x088e4a07b5396540),
            ("f\0", 0x08987c07b5420ebb),
            ("fo\0", 0xdcb28a18fed9f926),
            ("foo\0", 0xdd1270790c25b935),
            ("foob\0", 0xcac146afa2febf5d),
            ("fooba\0", 0x8593d371f738acfe),
            ("foobar\0", 0x34531ca7168b8f38),
        ],
    );
}

#[test]
fn published_numbers_of_a_sentence_as_it_grows(rt: HostRuntime) {
    check_all(
        &rt,
        &[
            ("ch", 0x08a25607b54a22ae),
            ("cho", 0xf5faf0190cf90df3),
            ("chon", 0xf27397910b3221c7),
            ("chong", 0x2c8c2b76062f22e0),
            ("chongo", 0xe150688c8217b8fd),
            ("chongo ", 0xf35a83c10e4f1f87),
            ("chongo w", 0xd1edd10b507344d0),
            ("chongo wa", 0x2a5ee739b3ddb8c3),
            ("chongo was", 0xdcfb970ca1c0d310),
            ("chongo was ", 0x4054da76daa6da90),
            ("chongo was h", 0xf70a2ff589861368),
            ("chongo was he", 0x4c628b38aed25f17),
            ("chongo was her", 0x9dd1f6510f78189f),
            ("chongo was here", 0xa3de85bd491270ce),
            ("chongo was here!", 0x858e2fa32a55e61d),
            ("chongo was here!\n", 0x46810940eff5f915),
        ],
    );
}
