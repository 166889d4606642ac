// Cell files enciphered under a cell key, whole or part by part. Blocks do not depend on each other, so a file may be cut anywhere.
#![tactic(auto)]

ghost use Rattle.std.specs.Prelude.{◌≡◌, ◌++◌, ◌+◌, ◌-◌, ◌*◌, ◌/◌, ◌^◌, ◌≤◌, ◌<◌, length};
ghost use Rattle.octets.specs.Numbers.{bytes_of, bytes_number};
ghost use Rattle.octets.specs.Padding.{pad_of};
ghost use Rattle.text.specs.Texts.{placed};
ghost use Rattle.blowfish.specs.Cipher.{encipher_of};
ghost use Rattle.blocks.specs.Blocks.{each_block};
ghost use Rattle.forms.specs.Output.{written_of, lent_after};
ghost use Rattle.cell_file.specs.Enciphering.{cell_words, file_written, is_carried, part_written, end_written};
ghost use Rattle.cell_file.specs.Answers.{part_answer, part_lent};

use forms::refusals::Refusal;

// The longest file and the longest part: 16 MiB.
pub const MOST: usize = 16777216;

// What a part was enciphered to: how many bytes were written, and the number and the count of those that are carried on.
#[derive(Clone, Copy)]
pub struct Part {
    pub length: usize,
    pub carried: u64,
    pub count: u32,
}

// The words of a cell key.
pub fn cell_words(key: u64, words: &mut [u32; 1042])
    ensures { words.new ≡ cell_words key }
{
    let bytes = octets::numbers::bytes40(key);
    blowfish::key_schedule(&bytes, words);
}

// Whether x is the number of n carried bytes, at most seven.
pub fn is_carried(n: u32, x: u64) -> bool
    ensures { result ≡ is_carried n x }
{
    n <= 7 && x < 256u64.pow(n)
}

// The number of the bytes that x is the number of, with those of s after them: eight at most.
fn gathered(x: u64, s: &[u8]) -> u64
    requires { (length s.now ≤ 8) × (x < 256 ^ (8 - length s.now)) }
    ensures { result ≡ x * 256 ^ length s.now + bytes_number s.now }
{
    let mut gathered = x;
    for b in s {
        gathered = gathered * 256 + *b as u64;
    }
    gathered
}

// The last block: n carried bytes, whose number is x, and their padding.
fn last_block(n: usize, x: u64) -> u64
    requires { (n ≤ 7) × (x < 256 ^ n) }
    ensures { result ≡ pad_of n x }
{
    let added = 8 - n;
    let padding = [added as u8; 8];
    gathered(x, &padding[..added])
}

// Writes the last block at a place.
fn put_end(words: &[u32; 1042], n: usize, x: u64, out: &mut [u8], at: usize)
    requires { (n ≤ 7) × (x < 256 ^ n) }
    ensures { out.new ≡ placed at (bytes_of 8 (encipher_of words.now (pad_of n x))) out.old }
{
    let block = octets::numbers::bytes64(blowfish::encipher(words, last_block(n, x)));
    text::writing::put_text(out, at, &block);
}

// Enciphers a file: 103 for a wrong key or a file that is too long, 108 for too short an output.
#[tactic(auto, unfolding(crate::specs::Enciphering::file_written))]
pub fn encipher_file(key: u64, file: &[u8], out: &mut [u8]) -> Result<usize, Refusal>
    ensures { (result ≡ written_of (file_written key file.now (length out.old)))
        × (out.new ≡ lent_after (file_written key file.now (length out.old)) out.old) }
{
    if 0xFF_FFFF_FFFF < key || MOST < file.len() {
        return Err(Refusal::Value);
    }
    let whole = 8 * (file.len() / 8);
    if out.len() < whole + 8 {
        return Err(Refusal::Room);
    }
    let mut words = [0u32; 1042];
    cell_words(key, &mut words);
    blocks::encipher_blocks(&words, file, out);
    let rest = gathered(0, &file[whole..]);
    put_end(&words, file.len() - whole, rest, out, whole);
    Ok(whole + 8)
}

// Writes the whole blocks of n carried bytes and a part: the first has the carried bytes in it.
fn put_part(words: &[u32; 1042], n: usize, x: u64, part: &[u8], out: &mut [u8])
    requires { ((n ≤ 7) × (x < 256 ^ n)) × ((8 ≤ n + length part.now) × (8 * ((n + length part.now) / 8) ≤ length out.old)) }
    ensures { out.new ≡ placed 0 (each_block (encipher_of words.now) ((n + length part.now) / 8) (bytes_of n x ++ part.now)) out.old }
{
    let first = blowfish::encipher(words, gathered(x, &part[..8 - n]));
    text::writing::put_text(out, 0, &octets::numbers::bytes64(first));
    blocks::encipher_blocks(words, &part[8 - n..], &mut out[8..]);
}

// Enciphers a part after n carried bytes, whose number is x: 103 for a wrong key, a part that is too long or wrong carried bytes, 108 for too short an output.
#[tactic(auto, unfolding(crate::specs::Enciphering::part_written))]
pub fn encipher_part(key: u64, x: u64, n: u32, part: &[u8], out: &mut [u8]) -> Result<Part, Refusal>
    ensures { (result ≡ part_answer (part_written key x n part.now (length out.old)))
        × (out.new ≡ part_lent (part_written key x n part.now (length out.old)) out.old) }
{
    if 0xFF_FFFF_FFFF < key || MOST < part.len() || !is_carried(n, x) {
        return Err(Refusal::Value);
    }
    let carried = n as usize;
    let whole = 8 * ((carried + part.len()) / 8);
    if out.len() < whole {
        return Err(Refusal::Room);
    }
    if whole == 0 {
        return Ok(Part {
            length: 0,
            carried: gathered(x, part),
            count: n + part.len() as u32,
        });
    }
    let mut words = [0u32; 1042];
    cell_words(key, &mut words);
    put_part(&words, carried, x, part, out);
    let rest = whole - carried;
    Ok(Part {
        length: whole,
        carried: gathered(0, &part[rest..]),
        count: (part.len() - rest) as u32,
    })
}

// Enciphers the end, after n carried bytes whose number is x: 103 for a wrong key or wrong carried bytes, 108 for too short an output.
#[tactic(auto, unfolding(crate::specs::Enciphering::end_written))]
pub fn encipher_end(key: u64, x: u64, n: u32, out: &mut [u8]) -> Result<usize, Refusal>
    ensures { (result ≡ written_of (end_written key x n (length out.old)))
        × (out.new ≡ lent_after (end_written key x n (length out.old)) out.old) }
{
    if 0xFF_FFFF_FFFF < key || !is_carried(n, x) {
        return Err(Refusal::Value);
    }
    if out.len() < 8 {
        return Err(Refusal::Room);
    }
    let mut words = [0u32; 1042];
    cell_words(key, &mut words);
    put_end(&words, n as usize, x, out, 0);
    Ok(8)
}
