// The header of PRODUCTS.TXT: four lines, each of its kind.
ghost use Rattle.std.specs.Prelude.{◌≡◌};
ghost use Rattle.text.specs.Texts.{same_text};
ghost use Rattle.products.specs.Listing.{is_date_line, is_version_line, is_content_line};
ghost use Rattle.products.specs.Reading.{kind_test, passed, Begins};

use file_lines::LineFound;
use text::characters::Alphabet;
use text::reading::{byte_at, stands_at};

// The lines of the header.
#[derive(Clone, Copy)]
enum Kind {
    Date,
    Version,
    Content,
    Enc,
}

// Whether a line is a text.
#[tactic(auto, using(crate::proofs::HeaderLines::other_length, crate::proofs::HeaderLines::same_length))]
fn is_text(line: &[u8], text: &[u8]) -> bool
    ensures { result ≡ same_text line.now text.now }
{
    line.len() == text.len() && stands_at(text, line, 0)
}

// `:DATE YYYYMMDD HH:MM`, with seconds or without.
#[tactic(auto, unfolding(crate::specs::Listing::is_date_line, crate::specs::Listing::is_time_end))]
fn is_date_line(line: &[u8]) -> bool
    ensures { result ≡ is_date_line line.now }
{
    let n = line.len();
    file_lines::is_dated(line)
        && (n == 20 || n == 23 && byte_at(line, 20) == b':' && file_lines::is_below(60, line, 21))
}

// `:VERSION n`, 1 to 99 without a leading zero.
#[tactic(auto, using(crate::proofs::HeaderLines::version_by, crate::proofs::HeaderLines::too_short, crate::proofs::HeaderLines::too_long))]
fn is_version_line(line: &[u8]) -> bool
    ensures { result ≡ is_version_line line.now }
{
    let n = line.len();
    if n < 10 {
        return false;
    }
    if 11 < n {
        return false;
    }
    stands_at(b":VERSION ", line, 0)
        && byte_at(line, 9) != b'0'
        && text::reading::all_of(Alphabet::Digit, line, 9, n - 9)
}

// A full list, or a part of one.
#[tactic(auto, unfolding(crate::specs::Listing::is_content_line))]
fn is_content_line(line: &[u8]) -> bool
    ensures { result ≡ is_content_line line.now }
{
    is_text(line, b":CONTENT FULL") || is_text(line, b":CONTENT PARTIAL")
}

// Whether a line is the header's line of the kind.
#[tactic(auto, unfolding(crate::specs::Listing::is_enc_line))]
fn is_of(kind: Kind, line: &[u8]) -> bool
    ensures { result ≡ kind_test kind line.now }
{
    match kind {
        Kind::Date => is_date_line(line),
        Kind::Version => is_version_line(line),
        Kind::Content => is_content_line(line),
        Kind::Enc => is_text(line, b":ENC"),
    }
}

// The place after a line of the kind, or None where another stands there. A kind is given and no test, so that the contract says by name what the test is.
fn past(kind: Kind, list: &[u8], at: usize) -> Option<usize>
    ensures { result ≡ passed kind list.now at }
{
    let LineFound::Line(end) = file_lines::line_at(list, at) else {
        return None;
    };
    if !is_of(kind, &list[at..end]) {
        return None;
    }
    Some(end + 2)
}

// Where the rows begin, or None where the header is wrong.
#[tactic(auto, using(crate::proofs::Headers::no_date_lem, crate::proofs::Headers::no_version, crate::proofs::Headers::no_content, crate::proofs::Headers::begins))]
pub(crate) fn rows_begin(list: &[u8]) -> Option<usize>
    ensures { Begins list.now result }
{
    let version = past(Kind::Date, list, 0)?;
    let content = past(Kind::Version, list, version)?;
    let enc = past(Kind::Content, list, content)?;
    past(Kind::Enc, list, enc)
}
