use numbers::decimal::write_decimal;
use numbers::little_endian::{read, write};

#[test]
fn two_bytes_in_the_middle(rt: HostRuntime) {
    let mut bytes = [0xee; 6];
    write(&mut bytes, 3, 0x0102_u16);
    assert_eq!(rt; bytes, [0xee, 0xee, 0xee, 0x02, 0x01, 0xee]);
    assert_eq!(rt; read::<u16>(&bytes, 3), 0x0102);
    assert_eq!(rt; read::<u16>(&bytes, 2), 0x02ee);
}

#[test]
fn four_bytes_in_the_middle(rt: HostRuntime) {
    let mut bytes = [0xee; 8];
    write(&mut bytes, 3, 0x01020304_u32);
    assert_eq!(rt; bytes, [0xee, 0xee, 0xee, 0x04, 0x03, 0x02, 0x01, 0xee]);
    assert_eq!(rt; read::<u32>(&bytes, 3), 0x01020304);
    assert_eq!(rt; read::<u32>(&bytes, 4), 0xee010203);
}

#[test]
fn eight_bytes_in_the_middle(rt: HostRuntime) {
    let mut bytes = [0xee; 12];
    write(&mut bytes, 3, 0xf102030405060708_u64);
    assert_eq!(rt;
        bytes,
        [
            0xee, 0xee, 0xee, 0x08, 0x07, 0x06, 0x05, 0x04, 0x03, 0x02, 0xf1, 0xee,
        ]
    );
    assert_eq!(rt; read::<u64>(&bytes, 3), 0xf102030405060708);
    assert_eq!(rt; read::<u64>(&bytes, 2), 0x02030405060708ee);
}

// The digits from place 2 on, among dots, and the place after them.
fn decimal_among_dots(n: u64) -> ([u8; 24], usize) {
    let mut buffer = [b'.'; 24];
    let next = write_decimal(&mut buffer, 2, n);
    (buffer, next)
}

#[test]
fn decimal_digits_in_the_middle(rt: HostRuntime) {
    assert_eq!(rt; decimal_among_dots(0), (*b"..0.....................", 3));
    assert_eq!(rt; decimal_among_dots(9), (*b"..9.....................", 3));
    assert_eq!(rt; decimal_among_dots(10), (*b"..10....................", 4));
    assert_eq!(rt;
        decimal_among_dots(18446744073709551615),
        (*b"..18446744073709551615..", 22)
    );
}
