use rules::fnv::Fnv;
use rules::plain_number::PlainNumber;
use rules::rule::Rule;
use std::num::NonZeroU32;
use std::test::Fail;

fn range_of(size: u32) -> Result<NonZeroU32, Fail> {
    NonZeroU32::new(size).ok_or_else(|| Fail::new("a range of 0"))
}

// The bytes 1, 2, 3 and so on.
fn key_of_64_bytes() -> [u8; 64] {
    let mut key = [0; 64];
    for (byte, number) in key.iter_mut().zip(1..=64) {
        *byte = number;
    }
    key
}

#[test]
fn rules_have_their_numbers(rt: HostRuntime) {
    assert_eq!(rt; <PlainNumber as Rule>::rule_number(), 1);
    assert_eq!(rt; <Fnv as Rule>::rule_number(), 2);
}

#[test]
fn short_keys_at_a_small_range(rt: HostRuntime) -> Result<(), Fail> {
    let range = range_of(20)?;
    assert_eq!(rt; PlainNumber.fingerprint(&[], range), 0);
    assert_eq!(rt; PlainNumber.fingerprint(&[0, 1], range), 16);
    assert_eq!(rt; Fnv.fingerprint(&[], range), 17);
    Ok(())
}

#[test]
fn plain_number_reads_eight_bytes(rt: HostRuntime) -> Result<(), Fail> {
    let key = key_of_64_bytes();
    let range = range_of(1000003)?;
    assert_eq!(rt; PlainNumber.fingerprint(&key[0..0], range), 0);
    assert_eq!(rt; PlainNumber.fingerprint(&key[0..7], range), 71159);
    assert_eq!(rt; PlainNumber.fingerprint(&key[0..8], range), 425869);
    assert_eq!(rt; PlainNumber.fingerprint(&key[0..9], range), 425869);
    assert_eq!(rt; PlainNumber.fingerprint(&key, range), 425869);
    Ok(())
}

#[test]
fn fnv_reads_every_byte(rt: HostRuntime) -> Result<(), Fail> {
    let key = key_of_64_bytes();
    let range = range_of(1000003)?;
    assert_eq!(rt; Fnv.fingerprint(&key[0..0], range), 801432);
    assert_eq!(rt; Fnv.fingerprint(&key[0..7], range), 194106);
    assert_eq!(rt; Fnv.fingerprint(&key[0..8], range), 234578);
    assert_eq!(rt; Fnv.fingerprint(&key[0..9], range), 918789);
    assert_eq!(rt; Fnv.fingerprint(&key, range), 850137);
    Ok(())
}
