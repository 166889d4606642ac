// Many blocks under one key, four at a time: blocks do not depend on each other, and the processor works on several at once.
#![tactic(auto)]

ghost use Rattle.std.specs.Prelude.{◌≡◌, ℕ, ◌+◌, ◌*◌, ◌<◌, ◌≤◌, length};
ghost use Rattle.octets.specs.Places.{number_at};
ghost use Rattle.blowfish.specs.Cipher.{F, P, far_end, round, finish, cipher, GivesWords, block_of, block_number, encipher_of, decipher_of};
ghost use Rattle.blocks.specs.Blocks.{blocks_of_both, blocks_put};
ghost use Rattle.blocks.specs.Fours.{each, listed, first_four, cipher_by, block_put, all_put};

use blowfish::Block;

// Four blocks side by side. A struct and no array, whose map would hand each round's four through an iterator.
#[derive(Clone, Copy)]
struct Four {
    a: Block,
    b: Block,
    c: Block,
    d: Block,
}

// The block at a place of s.
fn block_at(s: &[u8], at: usize) -> Block
    ensures { result ≡ block_of (number_at 8 s.now at) }
{
    Block::from(octets::numbers::number64(s, at))
}

// The first four blocks of s; zeros where it has no more. At fixed places the test that each lies within s is one comparison.
fn first_four(s: &[u8]) -> Four
    ensures { result ≡ first_four s.now }
{
    Four {
        a: block_at(s, 0),
        b: block_at(s, 8),
        c: block_at(s, 16),
        d: block_at(s, 24),
    }
}

// One round of each of the four.
fn round_four(words: &[u32; 1042], p: u32, b: Four) -> Four
    ensures { result ≡ each (round (F words.now) p) b }
{
    Four {
        a: blowfish::round(words, p, b.a),
        b: blowfish::round(words, p, b.b),
        c: blowfish::round(words, p, b.c),
        d: blowfish::round(words, p, b.d),
    }
}

// After the sixteen rounds: the four as numbers.
fn finish_four(p17: u32, p18: u32, b: Four) -> [u64; 4]
    ensures { result ≡ listed (λ x. block_number (finish p17 p18 x)) b }
{
    [
        blowfish::finish(p17, p18, b.a),
        blowfish::finish(p17, p18, b.b),
        blowfish::finish(p17, p18, b.c),
        blowfish::finish(p17, p18, b.d),
    ]
}

// The four enciphered or deciphered, by the order of p: a round with each of its first sixteen words, then its last two.
// Sixteen lines, as for one block, where a loop was slower.
fn cipher_four<P: Fn(usize) -> u32>(words: &[u32; 1042], p: &P, mut b: Four) -> [u64; 4]
    requires { (i : ℕ) → i < 18 → P.pre p.now i }
    ensures { (q : ℕ → ℕ) → GivesWords (P.post p.now) q → result ≡ listed (λ x. block_number (cipher (F words.now) q x)) b }
{
    b = round_four(words, p(0), b);
    b = round_four(words, p(1), b);
    b = round_four(words, p(2), b);
    b = round_four(words, p(3), b);
    b = round_four(words, p(4), b);
    b = round_four(words, p(5), b);
    b = round_four(words, p(6), b);
    b = round_four(words, p(7), b);
    b = round_four(words, p(8), b);
    b = round_four(words, p(9), b);
    b = round_four(words, p(10), b);
    b = round_four(words, p(11), b);
    b = round_four(words, p(12), b);
    b = round_four(words, p(13), b);
    b = round_four(words, p(14), b);
    b = round_four(words, p(15), b);
    finish_four(p(16), p(17), b)
}

// The eight bytes of x put at a place.
#[tactic(auto, unfolding(crate::specs::Fours::block_put))]
fn put_block(out: &mut [u8], at: usize, x: u64)
    requires { at + 8 ≤ length out.old }
    ensures { out.new ≡ block_put at x out.old }
{
    out[at..at + 8].copy_from_slice(&octets::numbers::bytes64(x));
}

// The first n of four blocks put one after the other.
#[tactic(auto, unfolding(crate::specs::Fours::all_put))]
fn put_blocks(out: &mut [u8], at: usize, blocks: &[u64; 4], n: usize)
    requires { (n ≤ 4) × (at + 8 * n ≤ length out.old) }
    ensures { out.new ≡ all_put blocks.now at n out.old }
{
    for i in 0..n {
        put_block(out, at + 8 * i, blocks[i]);
    }
}

// How many whole blocks stand in s and have room in out.
fn blocks_of_both(s: &[u8], out: &[u8]) -> usize
    ensures { result ≡ blocks_of_both s.now out.now }
{
    s.len().min(out.len()) / 8
}

// All the blocks, with the words of P in the order of p. A last four that is not whole is worked as one, and what is there is put.
// A block alone goes alone: in a four it would wait for three that are not there.
fn cipher_blocks<P: Fn(usize) -> u32, A: Fn(u64) -> u64>(
    words: &[u32; 1042],
    p: P,
    alone: A,
    s: &[u8],
    out: &mut [u8],
)
    ghost q: { ℕ → ℕ }
    requires callable { (i : ℕ) → i < 18 → P.pre p i }
    requires gives { GivesWords (P.post p) q }
    requires alone_callable { A.IsAlwaysCallable alone }
    requires alone_gives { (x y : ℕ) → A.post alone x y → y ≡ cipher_by words.now q x }
    ensures { out.new ≡ blocks_put (cipher_by words.now q) s.now out.old }
{
    let n = blocks_of_both(s, out);
    if n == 1 {
        put_block(out, 0, alone(octets::numbers::number64(s, 0)));
        return;
    }
    // A while, since a for over the fours took 1.03 of the time.
    let mut i: usize = 0;
    while i < n {
        let four = cipher_four(words, &p, first_four(&s[8 * i..]));
        let k = (n - i).min(4);
        put_blocks(out, 8 * i, &four, k);
        i += k;
    }
}

// As many whole blocks of s as have room in out, enciphered each by itself.
#[tactic(auto, unfolding(blowfish::specs::Cipher::encipher_of))]
pub fn encipher_blocks(words: &[u32; 1042], s: &[u8], out: &mut [u8])
    ensures { out.new ≡ blocks_put (encipher_of words.now) s.now out.old }
{
    cipher_blocks(
        words,
        |i| words[i],
        |x| blowfish::encipher(words, x),
        s,
        out,
    );
}

// The same deciphered.
#[tactic(auto, unfolding(blowfish::specs::Cipher::decipher_of))]
pub fn decipher_blocks(words: &[u32; 1042], s: &[u8], out: &mut [u8])
    ensures { out.new ≡ blocks_put (decipher_of words.now) s.now out.old }
{
    cipher_blocks(
        words,
        |i| words[17 - i],
        |x| blowfish::decipher(words, x),
        s,
        out,
    );
}
