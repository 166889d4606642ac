// Runs the published vectors of Blowfish (its author's 34 pairs, and his series of key lengths) and of CRC-32; `stdout` has what they must give.
#![tactic(auto)]

use std::io;

// The keys and their clear blocks.
const PAIRS: [(u64, u64); 34] = [
    (0x0000000000000000, 0x0000000000000000),
    (0xffffffffffffffff, 0xffffffffffffffff),
    (0x3000000000000000, 0x1000000000000001),
    (0x1111111111111111, 0x1111111111111111),
    (0x0123456789abcdef, 0x1111111111111111),
    (0x1111111111111111, 0x0123456789abcdef),
    (0x0000000000000000, 0x0000000000000000),
    (0xfedcba9876543210, 0x0123456789abcdef),
    (0x7ca110454a1a6e57, 0x01a1d6d039776742),
    (0x0131d9619dc1376e, 0x5cd54ca83def57da),
    (0x07a1133e4a0b2686, 0x0248d43806f67172),
    (0x3849674c2602319e, 0x51454b582ddf440a),
    (0x04b915ba43feb5b6, 0x42fd443059577fa2),
    (0x0113b970fd34f2ce, 0x059b5e0851cf143a),
    (0x0170f175468fb5e6, 0x0756d8e0774761d2),
    (0x43297fad38e373fe, 0x762514b829bf486a),
    (0x07a7137045da2a16, 0x3bdd119049372802),
    (0x04689104c2fd3b2f, 0x26955f6835af609a),
    (0x37d06bb516cb7546, 0x164d5e404f275232),
    (0x1f08260d1ac2465e, 0x6b056e18759f5cca),
    (0x584023641aba6176, 0x004bd6ef09176062),
    (0x025816164629b007, 0x480d39006ee762f2),
    (0x49793ebc79b3258f, 0x437540c8698f3cfa),
    (0x4fb05e1515ab73a7, 0x072d43a077075292),
    (0x49e95d6d4ca229bf, 0x02fe55778117f12a),
    (0x018310dc409b26d6, 0x1d9d5c5018f728c2),
    (0x1c587f1c13924fef, 0x305532286d6f295a),
    (0x0101010101010101, 0x0123456789abcdef),
    (0x1f1f1f1f0e0e0e0e, 0x0123456789abcdef),
    (0xe0fee0fef1fef1fe, 0x0123456789abcdef),
    (0x0000000000000000, 0xffffffffffffffff),
    (0xffffffffffffffff, 0x0000000000000000),
    (0x0123456789abcdef, 0x0000000000000000),
    (0xfedcba9876543210, 0xffffffffffffffff),
];

// The key whose first bytes are the keys of the series, and the block that they encipher.
const SERIES: [u8; 24] = [
    0xf0, 0xe1, 0xd2, 0xc3, 0xb4, 0xa5, 0x96, 0x87, 0x78, 0x69, 0x5a, 0x4b, 0x3c, 0x2d, 0x1e, 0x0f,
    0x00, 0x11, 0x22, 0x33, 0x44, 0x55, 0x66, 0x77,
];

const SERIES_CLEAR: u64 = 0xfedcba9876543210;

// Key, clear block and enciphered block; the clear one is what deciphering gives back.
fn pair(to: &impl Print, key: u64, clear: u64) -> io::Result<()> {
    let mut words = [0u32; 1042];
    blowfish::key_schedule(&octets::numbers::bytes64(key), &mut words);
    let enciphered = blowfish::encipher(&words, clear);
    let back = blowfish::decipher(&words, enciphered);
    println!(to; "{key:016X} {back:016X} {enciphered:016X}")
}

fn pairs(to: &impl Print) -> io::Result<()> {
    for (key, clear) in &PAIRS {
        pair(to, *key, *clear)?;
    }
    Ok(())
}

// The key's length and the enciphered block; or the number of the refusal, as for the published keys of 1 to 3 bytes.
fn under(to: &impl Print, key: &[u8]) -> io::Result<()> {
    let mut words = [0u32; 1042];
    let number = blowfish::key_schedule(key, &mut words);
    let length = key.len();
    if number != 0 {
        return println!(to; "{length} {number}");
    }
    let enciphered = blowfish::encipher(&words, SERIES_CLEAR);
    println!(to; "{length} {enciphered:016X}")
}

fn series(to: &impl Print) -> io::Result<()> {
    let key = SERIES;
    for n in 1..=key.len() {
        under(to, &key[..n])?;
    }
    Ok(())
}

fn check(to: &impl Print, bytes: &[u8]) -> io::Result<()> {
    let crc = crc32::crc32(bytes);
    println!(to; "{crc:08X}")
}

fn main(rt: HostRuntime) -> io::Result<()> {
    pairs(&rt)?;
    series(&rt)?;
    check(&rt, b"123456789")?;
    check(&rt, b"")?;
    check(&rt, b"a")?;
    check(&rt, b"abc")?;
    check(&rt, b"The quick brown fox jumps over the lazy dog")
}
