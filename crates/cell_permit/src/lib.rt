// A line of PERMIT.TXT: a cell permit with its service level, edition, Data Server ID and comment.
#![tactic(auto)]

ghost use Rattle.std.specs.Prelude.{◌≡◌, ◌≤◌, length, get_or};
ghost use Rattle.octets.specs.Places.{point_at};
ghost use Rattle.text.specs.Characters.{raised_text, is_digit};
ghost use Rattle.text.specs.Texts.{part};
ghost use Rattle.cell_permit.specs.CellPermit.{ship_words, check_of};
ghost use Rattle.cell_permit.specs.Line.{comma_at, edition_length, shape_of, comment_of, comment_at, comment_start, key_under, checked, given_answer, read_with, read_line, line_number};
ghost use Rattle.cell_permit.specs.LineParts.{permit_of, is_level_part, is_server_part, fields_of};

use forms::refusals::Refusal;
use text::characters::Alphabet;

// What a line is written from.
#[derive(Clone, Copy)]
pub struct Cell {
    pub name: u64,
    pub key1: u64,
    pub key2: u64,
    pub expiry: u32,
    pub level: u32,
    pub edition: u32,
    pub server: u32,
}

// What a line says, with its notice. Its fields are not a `Cell`: each use would say `r.cell.name` for `r.name`.
#[derive(Clone, Copy)]
pub struct Record {
    pub name: u64,
    pub key1: u64,
    pub key2: u64,
    pub expiry: u32,
    pub level: u32,
    pub edition: u32,
    pub server: u32,
    pub notice: dates::Notice,
}

// The parts of a permit, the three cipher parts as blocks.
#[derive(Clone, Copy)]
struct PermitParts {
    name: u64,
    block1: u64,
    block2: u64,
    check: u64,
    expiry: u32,
}

// The parts of the fields after the permit.
#[derive(Clone, Copy)]
struct FieldParts {
    level: u32,
    edition: u32,
    server: u32,
}

// The parts of a line that has the shape.
#[derive(Clone, Copy)]
struct Parts {
    permit: PermitParts,
    fields: FieldParts,
}

// The words of a ship: those of HW_ID6, which is the HW_ID, its letters raised, followed by its own first byte.
pub fn ship_words(hw: u64, words: &mut [u32; 1042])
    ensures { words.new ≡ ship_words hw }
{
    let b = octets::numbers::bytes40(forms::identifiers::raised_hw_id(hw));
    let key = [b[0], b[1], b[2], b[3], b[4], b[0]];
    blowfish::key_schedule(&key, words);
}

// The check of a permit's first 48 characters.
#[tactic(auto, unfolding(crate::specs::CellPermit::check_of))]
pub fn check_of(words: &[u32; 1042], s: &[u8]) -> u64
    ensures { result ≡ check_of words.now s.now }
{
    blowfish::encipher(words, octets::padding::pad32(crc32::crc32(s)))
}

// The check of a line's first 48 characters with their letters raised. A function for both this and a user permit's 16 would hand an array back by value.
fn line_check(words: &[u32; 1042], line: &[u8]) -> u64
    requires { 48 ≤ length line.now }
    ensures { result ≡ check_of words.now (raised_text (part 48 line.now 0)) }
{
    let mut raised = [0u8; 48];
    text::writing::put_raised(&mut raised, 0, &line[..48]);
    check_of(words, &raised)
}

// A cell key as it was before it was padded and enciphered.
fn key_under(words: &[u32; 1042], block: u64) -> Option<u64>
    ensures { result ≡ key_under words.now block }
{
    octets::padding::unpad40(blowfish::decipher(words, block))
}

// Whether a digit stands at a place.
fn digit_at(s: &[u8], at: usize) -> bool
    ensures { result ≡ is_digit (get_or s.now at 0) }
{
    text::characters::is_digit(text::reading::byte_at(s, at))
}

// How many digits the edition has: none where it is blank.
#[tactic(auto, using(crate::proofs::Editions::one_more, crate::proofs::Editions::no_more))]
fn edition_length(line: &[u8]) -> usize
    ensures { result ≡ edition_length line.now }
{
    for n in 0..3 {
        if !digit_at(line, 67 + n) {
            return n;
        }
    }
    3
}

// Whether a comma stands at a place.
fn comma_at(s: &[u8], at: usize) -> bool
    ensures { result ≡ comma_at s.now at }
{
    text::reading::byte_at(s, at) == b','
}

// The first 64 bytes taken apart.
#[tactic(auto, unfolding(crate::specs::LineParts::permit_of, crate::specs::Line::is_permit, crate::specs::Line::permit_parts, text::specs::Texts::hex_at, forms::specs::DateText::date_at))]
fn permit_of(line: &[u8]) -> Option<PermitParts>
    ensures { result ≡ permit_of line.now }
{
    if !text::reading::all_of(Alphabet::Name, line, 0, 8) {
        return None;
    }
    let expiry = forms::date_text::date_at(line, 8)?;
    let block1 = text::reading::hex_at(line, 16, 16)?;
    let block2 = text::reading::hex_at(line, 32, 16)?;
    let check = text::reading::hex_at(line, 48, 16)?;
    Some(PermitParts {
        name: octets::numbers::number64(line, 0),
        block1,
        block2,
        check,
        expiry: expiry as u32,
    })
}

// A service level of 0 or 1 between commas, and no zero after them.
#[tactic(auto, unfolding(crate::specs::LineParts::is_level_part))]
fn is_level_part(line: &[u8]) -> bool
    ensures { result ≡ is_level_part line.now }
{
    comma_at(line, 64)
        && matches!(text::reading::byte_at(line, 65), b'0'..=b'1')
        && comma_at(line, 66)
        && text::reading::byte_at(line, 67) != b'0'
}

// After an edition of n digits: a Data Server ID between commas, and a comment.
#[tactic(auto, unfolding(crate::specs::LineParts::is_server_part))]
fn is_server_part(line: &[u8], n: usize) -> bool
    requires { n ≤ 3 }
    ensures { result ≡ is_server_part line.now n }
{
    let at = 71 + n;
    comma_at(line, 67 + n)
        && text::reading::all_of(Alphabet::Name, line, 68 + n, 2)
        && comma_at(line, 70 + n)
        && text::reading::all_of(Alphabet::Printable, line, at, line.len() - at)
}

// The fields after the permit taken apart.
#[tactic(auto, using(crate::proofs::ReadFields::tail_parts, crate::proofs::ReadFields::level_least, crate::proofs::ReadFields::digits_there, crate::proofs::ReadFields::edition_small), unfolding(crate::specs::LineParts::fields_of, crate::specs::Line::field_parts, text::specs::Texts::decimal_at))]
fn fields_of(line: &[u8]) -> Option<FieldParts>
    ensures { result ≡ fields_of line.now }
{
    if !is_level_part(line) {
        return None;
    }
    let n = edition_length(line);
    if !is_server_part(line, n) {
        return None;
    }
    let edition = text::reading::decimal_at(line, 67, n)?;
    Some(FieldParts {
        level: (text::reading::byte_at(line, 65) - b'0') as u32,
        edition: edition as u32,
        server: octets::numbers::number16(line, 68 + n) as u32,
    })
}

// A line taken apart.
#[tactic(auto, unfolding(crate::specs::Line::shape_of, crate::specs::Line::parts_of, crate::specs::Line::is_line, crate::specs::LineParts::permit_of, crate::specs::LineParts::fields_of))]
fn shape_of(line: &[u8]) -> Option<Parts>
    ensures { result ≡ shape_of line.now }
{
    if 160 < line.len() {
        return None;
    }
    let permit = permit_of(line)?;
    let fields = fields_of(line)?;
    Some(Parts { permit, fields })
}

// Where the comment begins; none for a line that gives 12.
#[tactic(auto, unfolding(crate::specs::Line::comment_at, crate::specs::Line::shape_of))]
pub fn comment_place(line: &[u8]) -> Option<usize>
    ensures { result ≡ comment_at line.now }
{
    shape_of(line)?;
    Some(71 + edition_length(line))
}

// The comment, as the part of the line that it is; the empty part at the line's start for a line that gives 12.
pub fn comment(line: &[u8]) -> &[u8]
    ensures { (result.now ≡ comment_of line.now) × (result.ref_ptr ≡ point_at line.entry (comment_start line.now)) }
{
    let Some(at) = comment_place(line) else {
        return &line[0..0];
    };
    &line[at..]
}

// A line that was taken apart, read under the words of a ship: 13 for its check, then 21 for its keys.
#[tactic(auto, unfolding(crate::specs::Line::checked))]
fn checked(
    words: &[u32; 1042],
    today: u32,
    days: u32,
    line: &[u8],
    p: Parts,
) -> Result<Record, Refusal>
    requires { 48 ≤ length line.now }
    ensures { result ≡ checked words.now today days line.now p }
{
    if p.permit.check != line_check(words, line) {
        return Err(Refusal::Check);
    }
    let key1 = key_under(words, p.permit.block1).ok_or(Refusal::Padding)?;
    let key2 = key_under(words, p.permit.block2).ok_or(Refusal::Padding)?;
    Ok(Record {
        name: p.permit.name,
        key1,
        key2,
        expiry: p.permit.expiry,
        level: p.fields.level,
        edition: p.fields.edition,
        server: p.fields.server,
        notice: dates::notice_of(p.fields.level, today, p.permit.expiry, days),
    })
}

// A line read under the words of a ship.
#[tactic(auto, using(crate::proofs::ReadLines::unchecked_within), unfolding(crate::specs::Line::read_with, crate::specs::Line::shape_of))]
pub fn read_with(words: &[u32; 1042], today: u32, days: u32, line: &[u8]) -> Result<Record, Refusal>
    ensures { result ≡ read_with words.now today days line.now }
{
    let p = shape_of(line).ok_or(Refusal::Shape)?;
    checked(words, today, days, line, p)
}

// A line read for a ship: its shape is looked at first, and the ship's words are set up only where it has it, so that this is no call of `read_with`.
#[tactic(auto, using(crate::proofs::ReadLines::unchecked_within), unfolding(crate::specs::Line::read_with, crate::specs::Line::shape_of))]
pub fn read_for(hw: u64, today: u32, days: u32, line: &[u8]) -> Result<Record, Refusal>
    ensures { result ≡ read_with (ship_words hw) today days line.now }
{
    let p = shape_of(line).ok_or(Refusal::Shape)?;
    let mut words = [0u32; 1042];
    ship_words(hw, &mut words);
    checked(&words, today, days, line, p)
}

// The answer's number: a record's is that of its notice.
pub fn line_number(line: Result<Record, Refusal>) -> u32
    ensures { result ≡ line_number line }
{
    match line {
        Ok(r) => dates::notice_number(r.notice),
        Err(r) => r.number(),
    }
}

// HW_ID, today and warning days, one by one as C gives them: refused with 18, then 14, then 103 for days that are no warning days.
#[tactic(auto, unfolding(crate::specs::Line::given_answer))]
pub fn judge_given(hw: u64, today: u32, days: u32) -> Result<(), Refusal>
    ensures { result ≡ given_answer hw today days }
{
    if !forms::identifiers::is_hw_id(hw) {
        return Err(Refusal::HwId);
    }
    if !dates::is_date(today) {
        return Err(Refusal::Today);
    }
    if !dates::is_days(days) {
        return Err(Refusal::Value);
    }
    Ok(())
}

// A line read: what is given is judged first.
#[tactic(auto, unfolding(crate::specs::Line::read_line))]
pub fn read_line(hw: u64, today: u32, days: u32, line: &[u8]) -> Result<Record, Refusal>
    ensures { result ≡ read_line hw today days line.now }
{
    judge_given(hw, today, days)?;
    read_for(hw, today, days, line)
}
