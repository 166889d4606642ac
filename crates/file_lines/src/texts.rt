// Texts that LF ends: where one ends that begins at a place.
ghost use Rattle.std.specs.Prelude.{◌≡◌, ℕ, ◌<◌, ◌≤◌, length, slice_index, EachIndex, IsFalse};
ghost use Rattle.file_lines.specs.Texts.{is_lf, text_length, text_ends};

// Whether LF is among 64 bytes. No branch is made for a byte, so that the compiler takes many at a time.
fn has_lf(block: &[u8; 64]) -> bool
    ensures { IsFalse result → EachIndex block.now (λ k. IsFalse (is_lf (slice_index block.now k))) }
{
    let mut found = false;
    for c in block {
        found |= *c == b'\n';
    }
    found
}

// How many bytes at the start are passed: 64 at a time, while LF is not among them.
fn blocks_passed(rest: &[u8]) -> usize
    ensures { (result ≤ length rest.now) × ((k : ℕ) → k < result → IsFalse (is_lf (slice_index rest.now k))) }
{
    let (blocks, _) = rest.as_chunks::<64>();
    64 * blocks
        .iter()
        .position(|b| has_lf(b))
        .unwrap_or(blocks.len())
}

// How many bytes stand before the first LF; all where there is none.
fn text_length(rest: &[u8]) -> usize
    ensures { result ≡ text_length rest.now }
{
    let blocks = blocks_passed(rest);
    let words = blocks + super::words_passed(&rest[blocks..]);
    words
        + rest[words..]
            .iter()
            .position(|c| *c == b'\n')
            .unwrap_or(rest.len() - words)
}

// Where the text that begins at a place ends: its LF, or the file's end. Beyond the file none begins, and the place is the answer.
#[tactic(auto, using(crate::proofs::TextEnds::text_within, crate::proofs::TextEnds::ends_beyond), unfolding(crate::specs::Texts::text_ends))]
pub fn text_ends(file: &[u8], place: usize) -> usize
    ensures { result ≡ text_ends file.now place }
{
    if file.len() < place {
        place
    } else {
        place + text_length(&file[place..])
    }
}
