// CRC-32 of long texts, sixteen bytes at a time: four streams of words, which do not depend on each other, so that the processor works on several at once.
#![tactic(auto)]

ghost use Rattle.std.specs.Prelude.{◌≡◌, ◌≤◌, length};
ghost use Rattle.std.specs.List.{fold};
ghost use Rattle.crc32.specs.Crc32.{shifts, feed_all, crc32_of};
ghost use Rattle.crc32_long.specs.Streams.{words_of, four_in};

mod table;

use table::Table;

// From so many bytes on, copying the table pays: with it in the cache both ways take as long at 112.
const LONG: usize = 128;

// A word goes out, and 96 bits after it: those of the other three streams.
#[tactic(auto, using(crate::proofs::Lookup::word_by_bytes))]
fn word_out(t: &Table, x: u32) -> u32
    ensures { result ≡ shifts 128 x }
{
    let low = t.byte_out(0, x) ^ t.byte_out(1, x / 0x100);
    let high = t.byte_out(2, x / 0x1_0000) ^ t.byte_out(3, x / 0x100_0000);
    low ^ high
}

// Four streams: the words that stand side by side in each sixteen bytes.
#[derive(Clone, Copy)]
struct Streams {
    a: u32,
    b: u32,
    c: u32,
    d: u32,
}

// The words of sixteen bytes, of each the low byte first.
fn words_of(s: &[u8; 16]) -> Streams
    ensures { result ≡ words_of s.now }
{
    let (words, _) = s.as_chunks();
    Streams {
        a: u32::from_le_bytes(words[0]),
        b: u32::from_le_bytes(words[1]),
        c: u32::from_le_bytes(words[2]),
        d: u32::from_le_bytes(words[3]),
    }
}

// Where the streams begin: the state goes into the first word.
#[tactic(auto, using(crate::proofs::Sixteens::sixteen_first))]
fn begun(state: u32, s: &[u8; 16]) -> Streams
    ensures { four_in result ≡ feed_all state s.now }
{
    let mut x = words_of(s);
    x.a = state ^ x.a;
    x
}

// Each stream goes on by itself: its word goes out, and its next comes in.
#[tactic(auto, using(crate::proofs::Sixteens::sixteen_more))]
fn onward(t: &Table, x: Streams, s: &[u8; 16]) -> Streams
    ensures { four_in result ≡ feed_all (four_in x) s.now }
{
    let next = words_of(s);
    Streams {
        a: word_out(t, x.a) ^ next.a,
        b: word_out(t, x.b) ^ next.b,
        c: word_out(t, x.c) ^ next.c,
        d: word_out(t, x.d) ^ next.d,
    }
}

fn streams_in(t: &Table, x: Streams, sixteens: &[[u8; 16]]) -> Streams
    ensures { four_in result ≡ fold feed_all (four_in x) sixteens.now }
{
    let mut x = x;
    for s in sixteens {
        x = onward(t, x, s);
    }
    x
}

// The state that the streams stand for: their sixteen bytes come in.
#[tactic(auto, using(crate::proofs::Sixteens::four_bytes))]
fn four_in(x: Streams) -> u32
    ensures { result ≡ four_in x }
{
    let bytes = [
        x.a.to_le_bytes(),
        x.b.to_le_bytes(),
        x.c.to_le_bytes(),
        x.d.to_le_bytes(),
    ];
    crc32::feed(0, bytes.as_flattened())
}

// The state after all bytes of a text have come in that has sixteen or more. Never taken into its caller: a short text would take its 4 KiB of stack.
#[tactic(auto, using(crate::proofs::Sixteens::long_fed))]
#[inline(never)]
fn long_in(state: u32, s: &[u8]) -> u32
    requires { 16 ≤ length s.now }
    ensures { result ≡ feed_all state s.now }
{
    let t = Table::new();
    let (sixteens, rest) = s.as_chunks();
    let x = streams_in(&t, begun(state, &sixteens[0]), &sixteens[1..]);
    crc32::feed(four_in(x), rest)
}

// The state after all bytes have come in. Short texts go the way of crc32, as permits do, with its small table.
pub fn feed(state: u32, s: &[u8]) -> u32
    ensures { result ≡ feed_all state s.now }
{
    if s.len() < LONG {
        crc32::feed(state, s)
    } else {
        long_in(state, s)
    }
}

// CRC-32 of the bytes.
#[tactic(auto, unfolding(crc32::specs::Crc32::crc32_of))]
pub fn crc32(s: &[u8]) -> u32
    ensures { result ≡ crc32_of s.now }
{
    0xffffffff - feed(0xffffffff, s)
}
