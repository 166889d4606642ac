// Blowfish: a key's words, and enciphering and deciphering a block with them.
// The words stand in one array: P1 to P18, then S1, S2, S3 and S4 of 256 each. Whoever holds a key's words lends them to each call.
#![tactic(auto)]

ghost use Rattle.std.specs.Prelude.{◌≡◌, ℕ, ◌<◌, length};
ghost use Rattle.blowfish.specs.Cipher.{F, block, exchange, round, finish, cipher, GivesWords, block_of, block_number, encipher_of, decipher_of};
ghost use Rattle.blowfish.specs.Schedule.{key_word, keyed, filled, key_number, scheduled};

// Blowfish's F.
#[tactic(auto, unfolding(crate::specs::Cipher::F))]
fn round_function(words: &[u32; 1042], x: u32) -> u32
    ensures { result ≡ F words.now x }
{
    let a = words[18 + (x / 0x100_0000 % 256) as usize];
    let b = words[274 + (x / 0x1_0000 % 256) as usize];
    let c = words[530 + (x / 256 % 256) as usize];
    let d = words[786 + (x % 256) as usize];
    std::num::wrapping_add_u32(std::num::wrapping_add_u32(a, b) ^ c, d)
}

// A block: the words L and R.
#[derive(Clone, Copy)]
pub struct Block {
    pub left: u32,
    pub right: u32,
}

// The words of a block that is given as a number.
impl From<u64> for Block {
    ghost from_gives = { λ x b. b ≡ block_of x };

    fn from(x: u64) -> Block {
        Block {
            left: (x / 0x1_0000_0000) as u32,
            right: (x % 0x1_0000_0000) as u32,
        }
    }
}

impl From<Block> for u64 {
    ghost from_gives = { λ b x. x ≡ block_number b };

    fn from(b: Block) -> u64 {
        (b.left as u64) * 0x1_0000_0000 + (b.right as u64)
    }
}

fn exchanged(left: u32, right: u32) -> Block
    ensures { result ≡ exchange (block left right) }
{
    Block {
        left: right,
        right: left,
    }
}

// One round: L xor p, then R xor F(L), then exchange L and R.
pub fn round(words: &[u32; 1042], p: u32, mut b: Block) -> Block
    ensures { result ≡ round (F words.now) p b }
{
    b.left ^= p;
    b.right ^= round_function(words, b.left);
    exchanged(b.left, b.right)
}

// After sixteen rounds: undo the last exchange, then R xor P17, then L xor P18.
pub fn finish(p17: u32, p18: u32, b: Block) -> u64
    ensures { result ≡ block_number (finish p17 p18 b) }
{
    let mut b = exchanged(b.left, b.right);
    b.right ^= p17;
    b.left ^= p18;
    u64::from(b)
}

// A block enciphered or deciphered, by the order of p: a round with each of its first sixteen words, then its last two.
// Sixteen lines: a loop of sixteen turns took 1.04 of the time.
fn cipher<P: Fn(usize) -> u32>(words: &[u32; 1042], p: P, block: u64) -> u64
    requires { (i : ℕ) → i < 18 → P.pre p i }
    ensures { (q : ℕ → ℕ) → GivesWords (P.post p) q → result ≡ block_number (cipher (F words.now) q (block_of block)) }
{
    let mut b = Block::from(block);
    b = round(words, p(0), b);
    b = round(words, p(1), b);
    b = round(words, p(2), b);
    b = round(words, p(3), b);
    b = round(words, p(4), b);
    b = round(words, p(5), b);
    b = round(words, p(6), b);
    b = round(words, p(7), b);
    b = round(words, p(8), b);
    b = round(words, p(9), b);
    b = round(words, p(10), b);
    b = round(words, p(11), b);
    b = round(words, p(12), b);
    b = round(words, p(13), b);
    b = round(words, p(14), b);
    b = round(words, p(15), b);
    finish(p(16), p(17), b)
}

// The block enciphered: P stands first in the words.
#[tactic(auto, unfolding(crate::specs::Cipher::encipher_of))]
pub fn encipher(words: &[u32; 1042], block: u64) -> u64
    ensures { result ≡ encipher_of words.now block }
{
    cipher(words, |i| words[i], block)
}

// The block deciphered: the same with P from the far end, P18 first.
#[tactic(auto, unfolding(crate::specs::Cipher::decipher_of))]
pub fn decipher(words: &[u32; 1042], block: u64) -> u64
    ensures { result ≡ decipher_of words.now block }
{
    cipher(words, |i| words[17 - i], block)
}

// Four bytes of the key as a word, from the byte i on; the key is read round and round.
#[tactic(auto, unfolding(crate::specs::Schedule::key_word))]
fn key_word(key: &[u8], i: usize) -> u32
    requires nonempty { 0 < length key.now }
    requires i_bound { i < 72 }
    ensures { result ≡ key_word key.now i }
{
    let n = key.len();
    u32::from_be_bytes([
        key[i % n],
        key[(i + 1) % n],
        key[(i + 2) % n],
        key[(i + 3) % n],
    ])
}

// The words of P combined with the key.
#[tactic(auto, unfolding(crate::specs::Schedule::keyed))]
fn combine(key: &[u8], words: &mut [u32; 1042])
    requires { 0 < length key.now }
    ensures { words.new ≡ keyed key.now 18 words.old }
{
    for i in 0..18 {
        words[i] ^= key_word(key, 4 * i);
    }
}

// The zero block enciphered again and again, each result replacing the next two words.
#[tactic(auto, unfolding(crate::specs::Schedule::filled))]
fn fill(words: &mut [u32; 1042])
    ensures { words.new ≡ (filled 521 (record { words = words.old; block = 0 })).words }
{
    let mut block = 0;
    for i in 0..521 {
        block = encipher(words, block);
        let b = Block::from(block);
        words[2 * i] = b.left;
        words[2 * i + 1] = b.right;
    }
}

// The words of a key: 0; or 103 for a key that has not 4 to 56 bytes, and the words stay as they were.
// A number, since the cipher stands apart from the crates that name the refusals.
#[tactic(auto, unfolding(crate::specs::Schedule::is_key, crate::specs::Schedule::key_number, crate::specs::Schedule::scheduled, crate::specs::Schedule::schedule))]
pub fn key_schedule(key: &[u8], words: &mut [u32; 1042]) -> u32
    ensures { (result ≡ key_number key.now) × (words.new ≡ scheduled key.now words.old) }
{
    if key.len() < 4 || 56 < key.len() {
        return 103;
    }
    pi::put_start(words);
    combine(key, words);
    fill(words);
    0
}
