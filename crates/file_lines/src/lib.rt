// What PERMIT.TXT and PRODUCTS.TXT have in common: lines that CR LF ends, :ECS, and the date and time at the start.
#![tactic(auto)]

ghost use Rattle.std.specs.Prelude.{◌≡◌, ℕ, ◌+◌, ◌<◌, ◌≤◌, true, length, slice_index, EachIndex, MatchOption, IsTrue, IsFalse};
ghost use Rattle.file_lines.specs.Lines.{is_line_end, line_length, line_ends, ends_at, line_found};
ghost use Rattle.file_lines.specs.Dated.{is_below, is_dated};

pub mod texts; // texts.rt: texts that LF ends

// What stands at a place of a file: a line, with the place of its CR LF; what no CR LF ends; or nothing to read.
#[derive(Clone, Copy)]
pub enum LineFound {
    Line(usize),
    Unended,
    End,
}

// The top bit of each byte of a word, and the byte after CR in each.
const TOP: u64 = 0x8080_8080_8080_8080;

const PAST_CR: u64 = 0x0e0e_0e0e_0e0e_0e0e;

// Whether eight bytes are surely all beyond CR, as printed characters are: 14 taken from each leaves no top bit, and borrows nothing.
fn are_past_cr(word: &[u8; 8]) -> bool
    ensures { result ≡ true → EachIndex word.now (λ k. 13 < slice_index word.now k) }
{
    octets::numbers::number64(word, 0).wrapping_sub(PAST_CR) & TOP == 0
}

// How many bytes at the start are passed: eight at a time, while they are surely beyond CR.
pub(crate) fn words_passed(rest: &[u8]) -> usize
    ensures { (result ≤ length rest.now) × ((k : ℕ) → k < result → 13 < slice_index rest.now k) }
{
    let (words, _) = rest.as_chunks::<8>();
    8 * words
        .iter()
        .position(|w| !are_past_cr(w))
        .unwrap_or(words.len())
}

// The first CR LF.
fn line_end_in(rest: &[u8]) -> Option<usize>
    ensures { MatchOption result
        ((k : ℕ) → k + 1 < length rest.now → IsFalse (is_line_end (slice_index rest.now k) (slice_index rest.now (k + 1))))
        (λ i. (i + 1 < length rest.now) × IsTrue (is_line_end (slice_index rest.now i) (slice_index rest.now (i + 1)))
        × ((k : ℕ) → k < i → IsFalse (is_line_end (slice_index rest.now k) (slice_index rest.now (k + 1))))) }
{
    rest.windows(2).position(|w| w[0] == b'\r' && w[1] == b'\n')
}

// How many bytes stand before the first CR LF; all where there is none.
fn line_length(rest: &[u8]) -> usize
    ensures { result ≡ line_length rest.now }
{
    let passed = words_passed(rest);
    passed + line_end_in(&rest[passed..]).unwrap_or(rest.len() - passed)
}

// Where the line that begins at a place ends: its CR LF, or the file's end.
#[tactic(auto, using(crate::proofs::LineEnds::line_within), unfolding(crate::specs::Lines::line_ends))]
fn line_ends(file: &[u8], place: usize) -> usize
    requires { place ≤ length file.now }
    ensures { result ≡ line_ends file.now place }
{
    place + line_length(&file[place..])
}

// Whether nothing is read at a place, whose line ends at end.
#[tactic(auto, using(crate::proofs::LineEnds::begins_first, crate::proofs::PartEnds::ends_with_bytes, crate::proofs::PartEnds::other_length, crate::proofs::PartEnds::four_bytes))]
fn ends_at(file: &[u8], place: usize, end: usize) -> bool
    requires { end ≡ line_ends file.now place }
    ensures { result ≡ ends_at file.now place }
{
    place == file.len() || end - place == 4 && text::reading::stands_at(b":ECS", file, place)
}

// What stands at a place. Beyond the file nothing is ended.
pub fn line_at(file: &[u8], place: usize) -> LineFound
    ensures { result ≡ line_found file.now place }
{
    if file.len() < place {
        return LineFound::Unended;
    }
    let end = line_ends(file, place);
    if ends_at(file, place, end) {
        return LineFound::End;
    }
    if end == file.len() {
        return LineFound::Unended;
    }
    LineFound::Line(end)
}

// Whether the two digits at a place are a number below a limit.
#[tactic(auto, unfolding(crate::specs::Dated::is_below, text::specs::Texts::decimal_at))]
pub fn is_below(limit: u64, file: &[u8], at: usize) -> bool
    ensures { result ≡ is_below limit file.now at }
{
    text::reading::decimal_at(file, at, 2).is_some_and(|x| x < limit)
}

// Whether a file begins with a date and a time.
#[tactic(auto, unfolding(crate::specs::Dated::is_dated, forms::specs::DateText::date_at))]
pub fn is_dated(file: &[u8]) -> bool
    ensures { result ≡ is_dated file.now }
{
    text::reading::stands_at(b":DATE ", file, 0)
        && forms::date_text::date_at(file, 6).is_some()
        && text::reading::byte_at(file, 14) == b' '
        && is_below(24, file, 15)
        && text::reading::byte_at(file, 17) == b':'
        && is_below(60, file, 18)
}
