// Cell files opened: by two cell keys and the CRC-32 of what was enciphered. A key's padding and CRC-32 are judged before anything is written.
#![tactic(auto)]

ghost use Rattle.std.specs.Prelude.{◌≡◌, true, ◌++◌, ◌+◌, ◌-◌, ◌*◌, ◌/◌, ◌%◌, ◌≤◌, ◌<◌, min, eqb, leb, length, take, drop};
ghost use Rattle.std.specs.List.{list_all};
ghost use Rattle.crc32.specs.Crc32.{feed_all, crc32_of};
ghost use Rattle.blowfish.specs.Cipher.{decipher_of};
ghost use Rattle.cell_file.specs.Enciphering.{most, cell_words};
ghost use Rattle.cell_opening.specs.Opening.{has_blocks, opened_file};
ghost use Rattle.cell_opening.specs.Judging.{padding_in, wholes, judged, neither, opened_by};
ghost use Rattle.cell_opening.specs.Answers.{file_answer, file_lent};

use forms::refusals::Refusal;

// How many bytes are deciphered at a time to be judged.
const PIECE: usize = 1024;

// A file that was opened: how long its text is, and which key was taken, 1 or 2.
#[derive(Clone, Copy)]
pub struct OpenedFile {
    pub length: usize,
    pub key: u32,
}

// Whether all bytes are b.
fn all_are(s: &[u8], b: u8) -> bool
    ensures { result ≡ list_all (λ c. eqb c b) s.now }
{
    s.iter().all(|c| *c == b)
}

// How many bytes of padding the last block has, where it is right.
#[tactic(auto, using(crate::proofs::LastBlock::found_lent))]
fn padding_in(last: [u8; 8]) -> Option<usize>
    ensures { result ≡ padding_in last }
{
    let n = last[7] as usize;
    if 1 <= n && n <= 8 && all_are(&last[8 - n..], last[7]) {
        Some(n)
    } else {
        None
    }
}

// The state of the CRC-32 after the next n bytes of what the words make of a file from here on.
fn feed_piece(words: &[u32; 1042], file: &[u8], n: usize, state: u32) -> u32
    requires { (n ≤ 1024) × (n ≤ 8 * (length file.now / 8)) }
    ensures { result ≡ feed_all state (take n (wholes (decipher_of words.now) file.now)) }
{
    let mut piece = [0u8; PIECE];
    blocks::decipher_blocks(words, file, &mut piece);
    crc32_long::feed(state, &piece[..n])
}

// The CRC-32 of the first bytes of what the words make of a file, deciphered piece by piece; nothing is kept of it.
fn text_crc(words: &[u32; 1042], file: &[u8], size: usize) -> u32
    requires { (size ≤ 8 * (length file.now / 8)) × (length file.now ≤ most + 8) }
    ensures { result ≡ crc32_of (take size (wholes (decipher_of words.now) file.now)) }
{
    let mut state: u32 = 0xffffffff;
    for i in 0..size.div_ceil(PIECE) {
        let at = PIECE * i;
        state = feed_piece(words, &file[at..], PIECE.min(size - at), state);
    }
    0xffffffff - state
}

// What a key makes of a file: how long the text is, or why it is not right. The key's words are left for whoever writes the text.
fn judge(key: u64, file: &[u8], crc: u32, words: &mut [u32; 1042]) -> Result<usize, Refusal>
    requires { (has_blocks file.now ≡ true) × (length file.now ≤ most + 8) }
    ensures { (result ≡ judged crc key file.now) × (words.new ≡ cell_words key) }
{
    cell_file::cell_words(key, words);
    let mut last = [0u8; 8];
    blocks::decipher_blocks(words, &file[file.len() - 8..], &mut last);
    let Some(n) = padding_in(last) else {
        return Err(Refusal::Padding);
    };
    let length = file.len() - n;
    if text_crc(words, file, length) != crc {
        return Err(Refusal::FileCrc);
    }
    Ok(length)
}

// Writes the text, whose last block is the file's last.
fn put_opened(words: &[u32; 1042], file: &[u8], size: usize, out: &mut [u8])
    requires { ((has_blocks file.now ≡ true) × (length file.now ≤ length out.old)) × ((size < length file.now) × (length file.now ≤ size + 8)) }
    ensures { out.new ≡ take size (wholes (decipher_of words.now) file.now) ++ drop size out.old }
{
    let whole = file.len() - 8;
    let mut last = [0u8; 8];
    blocks::decipher_blocks(words, &file[..whole], out);
    blocks::decipher_blocks(words, &file[whole..], &mut last);
    text::writing::put_text(out, whole, &last[..size - whole]);
}

// The refusal where neither key is right: 21 where neither gives right padding, and else 16.
fn neither(one: Refusal, two: Refusal) -> Refusal
    ensures { result ≡ neither one two }
{
    if one == Refusal::Padding { two } else { one }
}

// Opens a file whose form is right, by the first key that is.
fn open_by(file: &[u8], one: u64, two: u64, crc: u32, out: &mut [u8]) -> Result<OpenedFile, Refusal>
    requires { ((has_blocks file.now ≡ true) × (length file.now ≤ most + 8)) × (length file.now ≤ length out.old) }
    ensures { (result ≡ file_answer (opened_by file.now one two crc)) × (out.new ≡ file_lent (opened_by file.now one two crc) out.old) }
{
    let mut words = [0u32; 1042];
    let first = match judge(one, file, crc, &mut words) {
        Ok(length) => {
            put_opened(&words, file, length, out);
            return Ok(OpenedFile { length, key: 1 });
        }
        Err(refusal) => refusal,
    };
    let second = match judge(two, file, crc, &mut words) {
        Ok(length) => {
            put_opened(&words, file, length, out);
            return Ok(OpenedFile { length, key: 2 });
        }
        Err(refusal) => refusal,
    };
    Err(neither(first, second))
}

// Opens a file by two keys and the CRC-32 of what was enciphered: 103 for a wrong key or a file that is too long, 108 for an output that is shorter than the file, 12 for
// a length that is zero or no multiple of 8; then 21, 16 or the text.
#[tactic(auto, unfolding(crate::specs::Opening::opened_file))]
pub fn open_cell_file(
    file: &[u8],
    one: u64,
    two: u64,
    crc: u32,
    out: &mut [u8],
) -> Result<OpenedFile, Refusal>
    ensures { (result ≡ file_answer (opened_file file.now one two crc (length out.old)))
        × (out.new ≡ file_lent (opened_file file.now one two crc (length out.old)) out.old) }
{
    if 0xFF_FFFF_FFFF < one || 0xFF_FFFF_FFFF < two || cell_file::MOST + 8 < file.len() {
        return Err(Refusal::Value);
    }
    if out.len() < file.len() {
        return Err(Refusal::Room);
    }
    if file.len() < 1 || file.len() % 8 != 0 {
        return Err(Refusal::Shape);
    }
    open_by(file, one, two, crc, out)
}
