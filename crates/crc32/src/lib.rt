// CRC-32 of a slice, four bytes at a time by a table of hex digits. The table is small since a constant is copied at each call.
#![tactic(auto)]

ghost use Rattle.std.specs.Prelude.{◌≡◌};
ghost use Rattle.std.specs.List.{fold};
ghost use Rattle.crc32.specs.Crc32.{shifts, feed, feed_all, crc32_of};

mod table;

use table::Table;

// All 32 bits of a word go out.
#[tactic(auto, using(crate::proofs::Lookup::word_by_digits))]
fn word_out(t: &Table, x: u32) -> u32
    ensures { result ≡ shifts 32 x }
{
    let a = t.digit_out(0, x) ^ t.digit_out(1, x / 0x10);
    let b = t.digit_out(2, x / 0x100) ^ t.digit_out(3, x / 0x1000);
    let c = t.digit_out(4, x / 0x1_0000) ^ t.digit_out(5, x / 0x10_0000);
    let d = t.digit_out(6, x / 0x100_0000) ^ t.digit_out(7, x / 0x1000_0000);
    (a ^ b) ^ (c ^ d)
}

// Four bytes come in at once, as a word of which the first is the low byte.
#[tactic(auto, using(crate::proofs::Feeding::word_fed))]
fn word_in(t: &Table, c: u32, w: &[u8; 4]) -> u32
    ensures { result ≡ feed_all c w.now }
{
    word_out(t, c ^ u32::from_le_bytes(*w))
}

// One byte comes in: it goes out as the top byte of a word would, and the rest is moved down.
#[tactic(auto, using(crate::proofs::Lookup::byte_by_digits))]
fn byte_in(t: &Table, c: u32, b: u8) -> u32
    ensures { result ≡ feed c b }
{
    let low = (c ^ (b as u32)) % 256;
    t.digit_out(6, low) ^ t.digit_out(7, low / 16) ^ (c / 256)
}

fn words_in(t: &Table, state: u32, words: &[[u8; 4]]) -> u32
    ensures { result ≡ fold feed_all state words.now }
{
    words.iter().fold(state, |c, w| word_in(t, c, w))
}

fn bytes_in(t: &Table, state: u32, s: &[u8]) -> u32
    ensures { result ≡ fold feed state s.now }
{
    s.iter().fold(state, |c, b| byte_in(t, c, *b))
}

// The state after all bytes have come in.
#[tactic(auto, using(crate::proofs::Feeding::chunks_fed), unfolding(crate::specs::Crc32::feed_all))]
pub fn feed(state: u32, s: &[u8]) -> u32
    ensures { result ≡ feed_all state s.now }
{
    let t = Table::new();
    let (words, rest) = s.as_chunks();
    bytes_in(&t, words_in(&t, state, words), rest)
}

// CRC-32 of the bytes.
#[tactic(auto, unfolding(crate::specs::Crc32::crc32_of))]
pub fn crc32(s: &[u8]) -> u32
    ensures { result ≡ crc32_of s.now }
{
    0xffffffff - feed(0xffffffff, s)
}
