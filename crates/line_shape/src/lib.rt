// Whether a text has the shape of a permit line. A test of a character leaves its answer in a top bit, so that those of many are taken together, and no branch is made for each of them.
#![tactic(auto)]

ghost use Rattle.std.specs.Prelude.{◌≡◌, ◌-◌, ◌≤◌, true, length, if◌then◌else◌, nat_lt};
ghost use Rattle.octets.specs.Numbers.{bytes_of};
ghost use Rattle.octets.specs.Every.{all_of};
ghost use Rattle.text.specs.Characters.{between, is_digit, is_hex, is_name_character, is_printable, decimal_number};
ghost use Rattle.text.specs.Texts.{part};
ghost use Rattle.dates.specs.Calendar.{is_date};
ghost use Rattle.cell_permit.specs.Line.{is_permit, edition_length, is_line};
ghost use Rattle.cell_permit.specs.LineParts.{is_level_part, is_server_part};
ghost use Rattle.line_shape.specs.Pairs.{is_early};
ghost use Rattle.line_shape.specs.Plain.{plain_length};

use std::num::wrapping_sub_u8;

// '0' eight times.
const ZEROS: u64 = 0x3030_3030_3030_3030;

// A byte whose top bit is set where c is none of the characters from low to high.
#[tactic(auto, using(crate::proofs::Faults::within_range))]
fn outside(low: u8, high: u8, c: u8) -> u8
    requires { (low ≤ high) × (high ≤ 127) }
    ensures { nat_lt result 128 ≡ between low high c }
{
    wrapping_sub_u8(c, low) | wrapping_sub_u8(high, c)
}

// The same where c is none of 0-9 A-F a-f: a capital has its small letter's bits but one, which is set in both.
#[tactic(auto, using(crate::proofs::Faults::hex_passes))]
fn no_hex(c: u8) -> u8
    ensures { nat_lt result 128 ≡ is_hex c }
{
    outside(b'0', b'9', c) & outside(b'a', b'f', c | 0x20)
}

// The same where c is none of A-Z 0-9.
#[tactic(auto, using(crate::proofs::Faults::name_passes))]
fn no_name(c: u8) -> u8
    ensures { nat_lt result 128 ≡ is_name_character c }
{
    outside(b'0', b'9', c) & outside(b'A', b'Z', c)
}

// 1 for a digit, else 0.
#[tactic(auto, using(crate::proofs::Faults::digit_counts))]
fn digits_of(c: u8) -> u8
    ensures { result ≡ (if is_digit c then 1 else 0) }
{
    1 - outside(b'0', b'9', c) / 128
}

// Whether the two keys and the check are hex: 48 characters.
// That the line has 71 bytes or more stands in four contracts: a struct for it would hold a reference to the line, and none may; its first 71 bytes as an array are not the line that these speak of.
fn is_cipher_part(line: &[u8]) -> bool
    requires { 71 ≤ length line.now }
    ensures { result ≡ all_of is_hex (part 48 line.now 16) }
{
    let mut faults = 0;
    for c in &line[16..64] {
        faults |= no_hex(*c);
    }
    faults < 128
}

// Whether the comment is of printed characters: all from a place on. The loop is is_cipher_part's but for its test: one function of both would need a longer contract than it has lines.
fn is_comment(line: &[u8], at: usize) -> bool
    requires { at ≤ length line.now }
    ensures { result ≡ all_of is_printable (part (length line.now - at) line.now at) }
{
    let mut faults = 0;
    for c in &line[at..] {
        faults |= outside(b' ', b'~', *c);
    }
    faults < 128
}

// Whether these are a century from 19 to 29, a month, and a day that every month has; of the pairs of digits of a date.
#[tactic(auto, unfolding(crate::specs::Pairs::is_early))]
fn is_early(pairs: u64) -> bool
    ensures { result ≡ is_early pairs }
{
    let century = pairs / 0x1_0000_0000_0000 % 256;
    if century < 19 || 29 < century {
        return false;
    }
    let month = pairs / 0x1_0000 % 256;
    if month < 1 || 12 < month {
        return false;
    }
    let day = pairs % 256;
    1 <= day && day <= 28
}

// Whether eight digits, which are the bytes of x, are a date. Ten times each digit and the next one fit in a byte: so every second byte has the number of two.
fn is_date_of(x: u64) -> bool
    requires { all_of is_digit (bytes_of 8 x) ≡ true }
    ensures { result ≡ is_date (decimal_number (bytes_of 8 x)) }
{
    let digits = x - ZEROS;
    let pairs = digits / 256 * 10 + digits;
    if is_early(pairs) {
        return true;
    }
    let year = pairs / 0x1_0000_0000_0000 % 256 * 100 + pairs / 0x1_0000_0000 % 256;
    let date = year * 10000 + pairs / 0x1_0000 % 256 * 100 + pairs % 256;
    dates::is_date(date as u32)
}

// The first 64 bytes.
fn is_permit(line: &[u8]) -> bool
    requires { 71 ≤ length line.now }
    ensures { result ≡ is_permit line.now }
{
    if !text::names::are_name_characters(octets::numbers::number64(line, 0)) {
        return false;
    }
    let expiry = octets::numbers::number64(line, 8);
    if !text::names::are_digits(expiry) {
        return false;
    }
    if !is_date_of(expiry) {
        return false;
    }
    is_cipher_part(line)
}

// A service level of 0 or 1 between commas, and no zero after them.
#[tactic(auto, unfolding(cell_permit::specs::LineParts::is_level_part))]
fn is_level_part(line: &[u8]) -> bool
    requires { 71 ≤ length line.now }
    ensures { result ≡ is_level_part line.now }
{
    line[64] == b',' && b'0' <= line[65] && line[65] <= b'1' && line[66] == b',' && line[67] != b'0'
}

// How many digits the edition has.
#[tactic(auto, using(crate::proofs::Shapes::counted))]
fn edition_length(line: &[u8]) -> usize
    requires { 71 ≤ length line.now }
    ensures { result ≡ edition_length line.now }
{
    let one = digits_of(line[67]);
    let two = one * digits_of(line[68]);
    let three = two * digits_of(line[69]);
    (one + two + three) as usize
}

// After an edition of n digits: a Data Server ID between commas, and a comment.
fn is_server_part(line: &[u8], n: usize) -> bool
    requires { n ≤ 3 }
    ensures { result ≡ is_server_part line.now n }
{
    if line.len() < 71 + n {
        return false;
    }
    if line[67 + n] != b',' {
        return false;
    }
    if line[70 + n] != b',' {
        return false;
    }
    if 128 <= no_name(line[68 + n]) | no_name(line[69 + n]) {
        return false;
    }
    is_comment(line, 71 + n)
}

// Whether a text has the shape of a permit line.
pub fn is_line(line: &[u8]) -> bool
    ensures { result ≡ is_line line.now }
{
    if line.len() < 71 {
        return false;
    }
    if 160 < line.len() {
        return false;
    }
    if !is_permit(line) {
        return false;
    }
    if !is_level_part(line) {
        return false;
    }
    is_server_part(line, edition_length(line))
}

// How long a line without a comment would be that a text begins with, by its edition; none where it has less than 74 bytes.
#[tactic(auto, unfolding(crate::specs::Plain::plain_length))]
pub fn plain_length(text: &[u8]) -> Option<usize>
    ensures { result ≡ plain_length text.now }
{
    if text.len() < 74 {
        return None;
    }
    Some(71 + edition_length(text))
}
