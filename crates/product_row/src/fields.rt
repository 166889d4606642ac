// Fields by their forms. Each function answers the place after the field and its comma, or None where the field at the place is not of the form.
// A comma ends the field, so the line's end is not tested for.
ghost use Rattle.std.specs.Prelude.{◌≡◌, true, ◌||◌, ◌<◌, ◌≤◌, eqb, length};
ghost use Rattle.text.specs.Characters.{decimal_number};
ghost use Rattle.product_row.specs.Fields.{or_blank, is_cell_file, is_date_text, is_digits, is_number, is_fraction, is_unsigned, is_degrees, is_exchange_set, is_location};
ghost use Rattle.product_row.specs.Taking.{field_ends, field_at, taken, digits_end, is_numeral};

use text::characters::{digit_value, is_digit};

// The value of a blank field.
const BLANK_VALUE: u32 = 0;

// Where the digits that begin at a place end. No `for`: one tests for the line's end at each digit, and a list of few rows takes 4 percent longer.
// That a field ends within the line stands in many contracts here: a type for it would hold a reference to the line, and no type does, so that each contract shows what is lent.
fn digits_end(line: &[u8], at: usize) -> usize
    requires { field_ends line.now at < length line.now }
    ensures { result ≡ digits_end line.now at }
{
    let mut i = at;
    while is_digit(line[i]) {
        i += 1;
    }
    i
}

// Whether n digits with this first one are a number: not too many, without a leading zero, and not below low, which is 0 or 1.
#[tactic(auto, unfolding(crate::specs::Taking::is_numeral))]
fn is_numeral(most: usize, low: usize, n: usize, first: u8) -> bool
    ensures { result ≡ is_numeral most low n first }
{
    1 <= n && n <= most && (first != b'0' || n == 1 && low == 0)
}

// A cell's file: its name, tested as a number, and `.000`.
#[tactic(auto, using(crate::proofs::DigitPlaces::inside))]
pub(crate) fn cell_file(line: &[u8], at: usize) -> Option<usize>
    requires { field_ends line.now at < length line.now }
    ensures { result ≡ taken is_cell_file line.now at }
{
    if line.len() - at < 13 {
        return None;
    }
    if line[at + 12] != b',' {
        return None;
    }
    if !text::names::are_name_characters(octets::numbers::number64(line, at)) {
        return None;
    }
    if !text::reading::stands_at(b".000", line, at + 8) {
        return None;
    }
    Some(at + 13)
}

// A number.
#[tactic(auto, using(crate::proofs::DigitPlaces::inside, crate::proofs::NumberFields::number_laws))]
pub(crate) fn number(line: &[u8], at: usize, most: usize, low: usize) -> Option<usize>
    requires { (field_ends line.now at < length line.now) × (low ≤ 1) }
    ensures { result ≡ taken (is_number most low) line.now at }
{
    let end = digits_end(line, at);
    if line[end] != b',' {
        return None;
    }
    if !is_numeral(most, low, end - at, line[at]) {
        return None;
    }
    Some(end + 1)
}

// A number, or blank. The test for a blank field stands in each of the four that may be: one function over closures would need a contract longer than it.
#[tactic(auto, using(crate::proofs::DigitPlaces::inside, crate::proofs::BlankFields::blank_taken, crate::proofs::BlankFields::other_taken))]
pub(crate) fn number_or_blank(line: &[u8], at: usize, most: usize, low: usize) -> Option<usize>
    requires { (field_ends line.now at < length line.now) × (low ≤ 1) }
    ensures { result ≡ taken (or_blank (is_number most low)) line.now at }
{
    if line[at] == b',' {
        return Some(at + 1);
    }
    number(line, at, most, low)
}

// The value of a number of up to three digits, or of a blank field.
#[tactic(auto, using(crate::proofs::DigitPlaces::inside))]
pub(crate) fn value(line: &[u8], at: usize) -> u32
    requires { (field_ends line.now at < length line.now) × (or_blank (is_number 3 0) (field_at line.now at) ≡ true) }
    ensures { result ≡ decimal_number (field_at line.now at) }
{
    if line[at] == b',' {
        return BLANK_VALUE;
    }
    let one = digit_value(line[at]) as u32;
    if line[at + 1] == b',' {
        return one;
    }
    let two = one * 10 + digit_value(line[at + 1]) as u32;
    if line[at + 2] == b',' {
        return two;
    }
    two * 10 + digit_value(line[at + 2]) as u32
}

// Up to three digits, or blank.
#[tactic(auto, using(crate::proofs::NumberFields::number_laws))]
pub(crate) fn digits_or_blank(line: &[u8], at: usize) -> Option<usize>
    requires { field_ends line.now at < length line.now }
    ensures { result ≡ taken (or_blank (is_digits 3)) line.now at }
{
    let end = digits_end(line, at);
    if line[end] != b',' {
        return None;
    }
    if 3 < end - at {
        return None;
    }
    Some(end + 1)
}

// A date.
#[tactic(auto, using(crate::proofs::DateFields::date_laws))]
pub(crate) fn date(line: &[u8], at: usize) -> Option<usize>
    requires { field_ends line.now at < length line.now }
    ensures { result ≡ taken is_date_text line.now at }
{
    forms::date_text::date_at(line, at)?;
    if line[at + 8] != b',' {
        return None;
    }
    Some(at + 9)
}

// A date, or blank.
#[tactic(auto, using(crate::proofs::DigitPlaces::inside, crate::proofs::BlankFields::blank_taken, crate::proofs::BlankFields::other_taken))]
pub(crate) fn date_or_blank(line: &[u8], at: usize) -> Option<usize>
    requires { field_ends line.now at < length line.now }
    ensures { result ≡ taken (or_blank is_date_text) line.now at }
{
    if line[at] == b',' {
        return Some(at + 1);
    }
    date(line, at)
}

// Nothing, or a point and digits.
#[tactic(auto, using(crate::proofs::DigitPlaces::inside, crate::proofs::DigitPlaces::end_inside, crate::proofs::DegreeFields::degree_laws))]
fn fraction(line: &[u8], at: usize) -> Option<usize>
    requires { field_ends line.now at < length line.now }
    ensures { result ≡ taken is_fraction line.now at }
{
    if line[at] == b',' {
        return Some(at + 1);
    }
    if line[at] != b'.' {
        return None;
    }
    let end = digits_end(line, at + 1);
    if line[end] != b',' {
        return None;
    }
    if end == at + 1 {
        return None;
    }
    Some(end + 1)
}

// One to three digits, and a fraction or none.
#[tactic(auto, using(crate::proofs::DegreeFields::degree_laws))]
fn unsigned(line: &[u8], at: usize) -> Option<usize>
    requires { field_ends line.now at < length line.now }
    ensures { result ≡ taken is_unsigned line.now at }
{
    let point = digits_end(line, at);
    if point == at {
        return None;
    }
    if 3 < point - at {
        return None;
    }
    fraction(line, point)
}

// Degrees, or blank.
#[tactic(auto, using(crate::proofs::DigitPlaces::inside, crate::proofs::BlankFields::blank_taken, crate::proofs::DegreeFields::degree_laws))]
pub(crate) fn degrees_or_blank(line: &[u8], at: usize) -> Option<usize>
    requires { field_ends line.now at < length line.now }
    ensures { result ≡ taken (or_blank is_degrees) line.now at }
{
    if line[at] == b',' {
        return Some(at + 1);
    }
    if line[at] == b'-' {
        return unsigned(line, at + 1);
    }
    unsigned(line, at)
}

// Whether an exchange set begins so: with `B` or `U`.
fn is_set_letter(c: u8) -> bool
    ensures { result ≡ (eqb c 66 || eqb c 85) }
{
    matches!(c, b'B' | b'U')
}

// An exchange set.
#[tactic(auto, using(crate::proofs::DigitPlaces::inside, crate::proofs::LocationFields::no_letter, crate::proofs::LocationFields::number_ended, crate::proofs::LocationFields::then_number))]
fn exchange_set(line: &[u8], at: usize) -> Option<usize>
    requires { field_ends line.now at < length line.now }
    ensures { result ≡ taken is_exchange_set line.now at }
{
    if !is_set_letter(line[at]) {
        return None;
    }
    number(line, at + 1, 2, 1)
}

// A location, or blank.
#[tactic(auto, using(crate::proofs::DigitPlaces::inside, crate::proofs::DigitPlaces::end_inside, crate::proofs::BlankFields::blank_taken, crate::proofs::LocationFields::location_laws))]
pub(crate) fn location_or_blank(line: &[u8], at: usize) -> Option<usize>
    requires { field_ends line.now at < length line.now }
    ensures { result ≡ taken (or_blank is_location) line.now at }
{
    if line[at] == b',' {
        return Some(at + 1);
    }
    if line[at] != b'M' {
        return exchange_set(line, at);
    }
    let end = digits_end(line, at + 1);
    if line[end] != b';' {
        return None;
    }
    if !is_numeral(2, 1, end - (at + 1), line[at + 1]) {
        return None;
    }
    exchange_set(line, end + 1)
}
