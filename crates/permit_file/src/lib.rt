// A permit file, PERMIT.TXT: opening it, and reading it line by line.
#![tactic(auto)]

ghost use Rattle.std.specs.Prelude.{◌≡◌, List, ℕ, Result};
ghost use Rattle.forms.specs.declared.refusals.Refusal.{Refusal};
ghost use Rattle.cell_permit.specs.declared.Record.{Record};
ghost use Rattle.permit_file.specs.File.{is_header, step_by, step_with, step_of, open_of};

use cell_permit::Record;
use file_lines::LineFound;
use forms::refusals::Refusal;

// The reader's place in a file.
#[derive(Clone, Copy)]
pub struct Cursor {
    pub place: usize,
}

// What reading one line answers, with the next place inside.
#[derive(Clone, Copy)]
pub enum Step {
    Record(Record, Cursor),
    Refused(Refusal, Cursor),
    End(Cursor),
}

// Whether a file begins with a header.
#[tactic(auto, unfolding(crate::specs::File::is_header))]
pub fn is_header(file: &[u8]) -> bool
    ensures { result ≡ is_header file.now }
{
    file_lines::is_dated(file) && text::reading::stands_at(b"\r\n:VERSION 2\r\n:ENC\r\n", file, 20)
}

// Opening a file reads its header: the refusal, 12 and then 11, or the place of the first line after :ENC.
#[tactic(auto, unfolding(crate::specs::File::open_of, file_lines::specs::Lines::line_found))]
pub fn open(file: &[u8]) -> Result<Cursor, Refusal>
    ensures { result ≡ open_of file.now }
{
    if !is_header(file) {
        return Err(Refusal::Shape);
    }
    let place: usize = 40;
    match file_lines::line_at(file, place) {
        LineFound::End => Err(Refusal::NoLine),
        _ => Ok(Cursor { place }),
    }
}

impl Cursor {
    // One step, where read says what a line gives: no key is needed where none is read.
    #[tactic(auto, using(crate::proofs::NextLines::by_found, file_lines::proofs::Walks::line_bounds))]
    fn step_by<F: FnOnce(&[u8]) -> Result<Record, Refusal>>(self, file: &[u8], read: F) -> Step
        requires { F.IsAlwaysCallable read }
        ensures { (gives : List ℕ → Result Record Refusal) → ((line : _) (answer : _) → F.post read line answer → answer ≡ gives line.now)
            → result ≡ step_by gives file.now self.place }
    {
        match file_lines::line_at(file, self.place) {
            LineFound::Line(end) => {
                let next = Cursor { place: end + 2 };
                match read(&file[self.place..end]) {
                    Ok(r) => Step::Record(r, next),
                    Err(r) => Step::Refused(r, next),
                }
            }
            LineFound::Unended => Step::Refused(Refusal::Shape, Cursor { place: file.len() }),
            LineFound::End => Step::End(self),
        }
    }

    // One step under the words of a ship: the line that begins at the cursor's place is read.
    pub fn step_with(self, file: &[u8], words: &[u32; 1042], today: u32, days: u32) -> Step
        ensures { result ≡ step_with words.now today days file.now self.place }
    {
        self.step_by(
            file,
            |line| cell_permit::read_with(words, today, days, line),
        )
    }

    // One step. 18, 14 and 103 come first, and answer with the place that was given.
    #[tactic(auto, unfolding(crate::specs::File::step_of))]
    pub fn step(self, file: &[u8], hw: u64, today: u32, days: u32) -> Step
        ensures { result ≡ step_of hw today days file.now self.place }
    {
        match cell_permit::judge_given(hw, today, days) {
            Ok(()) => self.step_by(file, |line| cell_permit::read_for(hw, today, days, line)),
            Err(r) => Step::Refused(r, self),
        }
    }
}
