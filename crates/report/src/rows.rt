// A row for each line of the ENC part, put one after the other, and their counts.
ghost use Rattle.std.specs.Prelude.{◌≡◌, ◌++◌, ◌+◌, ◌*◌, ◌≤◌, ◌<◌, length};
ghost use Rattle.text.specs.Texts.{numeral, placed};
ghost use Rattle.cell_permit.specs.Line.{read_with};
ghost use Rattle.permit_file.specs.File.{step_with};
ghost use Rattle.permit_file.specs.Answers.{enc_answers};
ghost use Rattle.report.specs.LookThrough.{name_shown, row_of, rows_from, is_noticed, line_ends_in};
ghost use Rattle.report.specs.Turns.{Few, row_number, row_end, counted, turned, row_put, tally_of};

use cell_permit::Record;
use forms::refusals::Refusal;
use permit_file::{Cursor, Step};

// How far the look-through has come: the place in the file, the bytes written, and the lines counted by kind.
// No ghost field says that its counts are small: that a line more keeps them so depends on the file, so a turn would have to be told of that instead.
#[derive(Clone, Copy)]
pub struct Tally {
    pub place: usize,
    pub written: usize,
    pub count: u64,
    pub current: u64,
    pub soon: u64,
    pub expired: u64,
    pub refused: u64,
}

// Puts a number without leading zeros; answers the place after it.
fn put_numeral(out: &mut [u8], at: usize, x: u64) -> usize
    requires { at + length (numeral x) ≤ length out.old }
    ensures { (result ≡ at + length (numeral x)) × (out.new ≡ placed at (numeral x) out.old) }
{
    let n = text::writing::width(x);
    text::writing::put_decimal(out, at, n, x);
    at + n
}

// Puts a word and a number; answers the place after them.
pub(crate) fn put_field(out: &mut [u8], at: usize, word: &[u8], x: u64) -> usize
    requires { at + length (word.now ++ numeral x) ≤ length out.old }
    ensures { (result ≡ at + length (word.now ++ numeral x)) × (out.new ≡ placed at (word.now ++ numeral x) out.old) }
{
    text::writing::put_text(out, at, word);
    put_numeral(out, at + word.len(), x)
}

fn name_of(a: Result<Record, Refusal>) -> [u8; 8]
    ensures { result ≡ name_shown a }
{
    match a {
        Ok(r) => octets::numbers::bytes64(r.name),
        Err(_) => [b'-'; 8],
    }
}

// Puts a blank, the cell name and LF; answers the place after them.
fn put_row_end(out: &mut [u8], at: usize, a: Result<Record, Refusal>) -> usize
    requires { at + length (row_end a) ≤ length out.old }
    ensures { (result ≡ at + length (row_end a)) × (out.new ≡ placed at (row_end a) out.old) }
{
    let name = name_of(a);
    text::writing::put_text(out, at, b" ");
    text::writing::put_text(out, at + 1, &name);
    text::writing::put_text(out, at + 9, b"\n");
    at + 10
}

// Puts a blank and a line's number; answers the place after them.
fn put_number(out: &mut [u8], at: usize, a: Result<Record, Refusal>) -> usize
    requires { at + length (row_number a) ≤ length out.old }
    ensures { (result ≡ at + length (row_number a)) × (out.new ≡ placed at (row_number a) out.old) }
{
    put_field(out, at, b" ", cell_permit::line_number(a) as u64)
}

// Puts a line's row; answers the place after it.
fn put_row(out: &mut [u8], at: usize, count: u64, a: Result<Record, Refusal>) -> usize
    requires { at + length (row_of count a) ≤ length out.old }
    ensures { (result ≡ at + length (row_of count a)) × (out.new ≡ placed at (row_of count a) out.old) }
{
    let number = put_numeral(out, at, count);
    let name = put_number(out, number, a);
    put_row_end(out, name, a)
}

// Whether a line is a record whose notice has this number.
fn is_noticed(number: u32, a: Result<Record, Refusal>) -> bool
    ensures { result ≡ is_noticed number a }
{
    a.is_ok() && cell_permit::line_number(a) == number
}

// Puts a line's row and counts it.
#[tactic(auto, using(crate::proofs::LineEnds::byte_of), unfolding(crate::specs::Turns::counted))]
fn list_line(out: &mut [u8], a: Result<Record, Refusal>, next: usize, t: Tally) -> Tally
    requires few { Few 100000 t }
    requires a_in_bounds { t.written + length (row_of (t.count + 1) a) ≤ length out.old }
    ensures { (result ≡ counted a next t) × (out.new ≡ placed t.written (row_of (t.count + 1) a) out.old) }
{
    Tally {
        place: next,
        written: put_row(out, t.written, t.count + 1, a),
        count: t.count + 1,
        current: t.current + u64::from(is_noticed(0, a)),
        soon: t.soon + u64::from(is_noticed(20, a)),
        expired: t.expired + u64::from(is_noticed(15, a)),
        refused: t.refused + u64::from(a.is_err()),
    }
}

// One step: a line is listed, and the end goes on to the file's end.
#[tactic(auto, using(text::proofs::PlacedTexts::placed_none), unfolding(crate::specs::Turns::moved_to))]
fn turn(file: &[u8], words: &[u32; 1042], today: u32, days: u32, out: &mut [u8], t: Tally) -> Tally
    requires few { Few 100000 t }
    requires t_in_bounds { t.written + length (row_put (step_with words.now today days file.now t.place) t) ≤ length out.old }
    ensures { (result ≡ turned (length file.now) (step_with words.now today days file.now t.place) t)
        × (out.new ≡ placed t.written (row_put (step_with words.now today days file.now t.place) t) out.old) }
{
    let cursor = Cursor { place: t.place };
    let s = cursor.step_with(file, words, today, days);
    match s {
        Step::Record(r, next) => list_line(out, Ok(r), next.place, t),
        Step::Refused(r, next) => list_line(out, Err(r), next.place, t),
        Step::End(_) => Tally {
            place: file.len(),
            ..t
        },
    }
}

// Lists every line of an opened file; answers the tally at its end.
pub(crate) fn list_lines(
    file: &[u8],
    words: &[u32; 1042],
    today: u32,
    days: u32,
    out: &mut [u8],
) -> Tally
    requires in_bounds { (40 ≤ length file.now) × (length file.now ≤ 65536) }
    requires file_in_bounds { 18 * (line_ends_in file.now + 1) ≤ length out.old }
    ensures { (result ≡ tally_of (length file.now) (enc_answers (read_with words.now today days) file.now))
        × (out.new ≡ placed 0 (rows_from 1 (enc_answers (read_with words.now today days) file.now)) out.old) }
{
    let mut t = Tally {
        place: 40,
        written: 0,
        count: 0,
        current: 0,
        soon: 0,
        expired: 0,
        refused: 0,
    };
    // each turn tells where the next line is
    while t.place < file.len() {
        t = turn(file, words, today, days, out, t);
    }
    t
}
