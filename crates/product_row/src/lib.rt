// A row of the product list, PRODUCTS.TXT: its fields are read in their order, and name, edition and update are taken of it.
#![tactic(auto)]

ghost use Rattle.std.specs.Prelude.{◌≡◌, [], ◌∷◌, ◌++◌, suc, ◌+◌, ◌<◌, ◌≤◌, length, drop, replicate, count_by, ◌==◌};
ghost use Rattle.product_row.specs.Fields.{fields_of, or_blank, is_cell_file, is_date_text, is_digits, is_number, is_degrees};
ghost use Rattle.product_row.specs.Row.{last_forms, fits, read_row};
ghost use Rattle.product_row.specs.Taking.{fields_left, taken_all};
ghost use Rattle.product_row.specs.Starts.{start_of};

use text::characters::Alphabet;

mod fields; // fields.rt: fields of each form at a place

// What is taken of a row. Edition 0 is a cancelled cell; a blank update is 0.
#[derive(Clone, Copy)]
pub struct Row {
    pub name: u64,
    pub edition: u32,
    pub update: u32,
}

// What the first six fields give: edition and update, and the place after them.
#[derive(Clone, Copy)]
struct Start {
    edition: u32,
    update: u32,
    next: usize,
}

// How many commas up to 255 bytes have: so few that a byte counts them, and the compiler compares sixteen at once.
fn commas_in(piece: &[u8]) -> u8
    requires { length piece.now ≤ 255 }
    ensures { result ≡ count_by (λ c. c == 44) piece.now }
{
    piece.iter().map(|c| u8::from(*c == b',')).sum()
}

// How many commas a line has.
fn commas(line: &[u8]) -> usize
    ensures { suc result ≡ length (fields_of line.now) }
{
    let mut n: usize = 0;
    for piece in line.chunks(255) {
        n += commas_in(piece) as usize;
    }
    n
}

// The place after name and base cell issue date, or None.
#[tactic(auto, using(crate::proofs::TakenRows::taking_laws))]
fn name_and_date(line: &[u8]) -> Option<usize>
    requires { 3 ≤ length (fields_of line.now) }
    ensures { result ≡ taken_all (is_cell_file ∷ is_date_text ∷ []) line.now 0 }
{
    let date_at = fields::cell_file(line, 0)?;
    fields::date(line, date_at)
}

// The place after the latest update and the file size, or None.
#[tactic(auto, using(crate::proofs::TakenRows::taking_laws))]
fn update_and_size(line: &[u8], at: usize) -> Option<usize>
    requires { 3 ≤ fields_left line.now at }
    ensures { result ≡ taken_all (or_blank (is_number 3 0) ∷ or_blank (is_number 6 1) ∷ []) line.now at }
{
    let size_at = fields::number_or_blank(line, at, 3, 0)?;
    fields::number_or_blank(line, size_at, 6, 1)
}

// The first six fields.
#[tactic(auto, using(crate::proofs::StartFields::start_laws))]
fn first_fields(line: &[u8]) -> Option<Start>
    requires { 7 ≤ length (fields_of line.now) }
    ensures { result ≡ start_of line.now }
{
    let edition_at = name_and_date(line)?;
    let issued_at = fields::number(line, edition_at, 3, 0)?;
    let update_at = fields::date_or_blank(line, issued_at)?;
    let next = update_and_size(line, update_at)?;
    Some(Start {
        edition: fields::value(line, edition_at),
        update: fields::value(line, update_at),
        next,
    })
}

// The place after n fields of degrees, or None.
fn degrees_fields(line: &[u8], at: usize, n: usize) -> Option<usize>
    requires { n < fields_left line.now at }
    ensures { result ≡ taken_all (replicate n (or_blank is_degrees)) line.now at }
{
    let mut place = at;
    for _ in 0..n {
        place = fields::degrees_or_blank(line, place)?;
    }
    Some(place)
}

// The place after compression, encryption, base cell update number and last update of the previous edition, or None.
#[tactic(auto, using(crate::proofs::FieldLists::more_fields, crate::proofs::TakenRows::left_after, crate::proofs::TakenRows::all_next, crate::proofs::TakenRows::all_none, crate::proofs::TakenRows::all_one))]
fn small_numbers(line: &[u8], at: usize) -> Option<usize>
    requires { 5 ≤ fields_left line.now at }
    ensures { result ≡ taken_all (or_blank (is_number 2 0) ∷ or_blank (is_number 2 0) ∷ or_blank (is_digits 3) ∷ or_blank (is_digits 3) ∷ []) line.now at }
{
    let encryption_at = fields::number_or_blank(line, at, 2, 0)?;
    let base_at = fields::number_or_blank(line, encryption_at, 2, 0)?;
    let previous_at = fields::digits_or_blank(line, base_at)?;
    fields::digits_or_blank(line, previous_at)
}

// Whether the last six fields are of their forms.
#[tactic(auto, using(crate::proofs::LastFields::last_laws))]
fn last_fields(line: &[u8], at: usize) -> bool
    requires { fields_left line.now at ≡ 6 }
    ensures { result ≡ fits last_forms (fields_of (drop at line.now)) }
{
    let Some(location_at) = small_numbers(line, at) else {
        return false;
    };
    let Some(replacements_at) = fields::location_or_blank(line, location_at) else {
        return false;
    };
    text::reading::all_of(
        Alphabet::Printable,
        line,
        replacements_at,
        line.len() - replacements_at,
    )
}

// Whether the fields after the first six are of their forms: n of degrees, and the last six.
#[tactic(auto, using(crate::proofs::Rows::no_degrees, crate::proofs::Rows::last_six, crate::proofs::Rows::then_last))]
fn rest_fits(line: &[u8], at: usize, n: usize) -> bool
    requires { fields_left line.now at ≡ n + 6 }
    ensures { result ≡ fits (replicate n (or_blank is_degrees) ++ last_forms) (fields_of (drop at line.now)) }
{
    let Some(last_at) = degrees_fields(line, at, n) else {
        return false;
    };
    last_fields(line, last_at)
}

// A line, given without its CR LF.
#[tactic(auto, using(crate::proofs::Rows::rest_left, crate::proofs::Rows::rest_wrong, crate::proofs::Rows::row_right))]
pub fn read_row(line: &[u8]) -> Option<Row>
    ensures { result ≡ read_row line.now }
{
    let n = commas(line);
    if n < 15 {
        return None;
    }
    if 35 < n {
        return None;
    }
    let start = first_fields(line)?;
    if !rest_fits(line, start.next, n - 11) {
        return None;
    }
    Some(Row {
        name: octets::numbers::number64(line, 0),
        edition: start.edition,
        update: start.update,
    })
}
