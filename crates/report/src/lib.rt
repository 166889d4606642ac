// The look-through's report: the whole output for a whole input.
#![tactic(auto)]

ghost use Rattle.std.specs.Prelude.{◌≡◌, ◌≤◌, length};
ghost use Rattle.text.specs.Texts.{placed};
ghost use Rattle.forms.specs.Output.{written_of, lent_after};
ghost use Rattle.file_lines.specs.Lines.{is_line_end};
ghost use Rattle.report.specs.LookThrough.{start_number, report, line_ends_in, room_for, reported};

use forms::refusals::Refusal;

mod rows; // rows.rt: a row for each line, and their counts
mod start; // start.rt: the first line, and why nothing is listed
mod totals; // totals.rt: the totals by kind, or the refusal

// Whether two bytes are CR LF.
fn is_line_end(first: u8, second: u8) -> bool
    ensures { result ≡ is_line_end first second }
{
    first == b'\r' && second == b'\n'
}

// How many CR LFs an input has. A narrow count lets the compiler take many bytes at a time.
#[tactic(auto, using(crate::proofs::LineEnds::next_counted, crate::proofs::LineEnds::two_bytes_each, crate::proofs::LineEnds::few_ends))]
fn line_ends_in(input: &[u8]) -> u16
    requires { length input.now ≤ 65536 }
    ensures { result ≡ line_ends_in input.now }
{
    let mut n: u16 = 0;
    for i in 1..input.len() {
        n += u16::from(is_line_end(input[i - 1], input[i]));
    }
    n
}

// Room that is enough for the report of an input; one that is too long is only refused.
#[tactic(auto, using(crate::proofs::LineEnds::two_bytes_each), unfolding(crate::specs::LookThrough::room_for))]
fn room_for(input: &[u8]) -> usize
    ensures { result ≡ room_for input.now }
{
    if 65536 < input.len() {
        return 118;
    }
    18 * usize::from(line_ends_in(input)) + 118
}

// Lists the lines of an input that is not refused; answers how many bytes the report has.
fn list_all(input: &[u8], out: &mut [u8]) -> usize
    requires input_value { start_number input.now ≡ 0 }
    requires input_in_bounds { room_for input.now ≤ length out.old }
    ensures { (result ≡ length (report input.now)) × (out.new ≡ placed 0 (report input.now) out.old) }
{
    let mut words = [0u32; 1042];
    cell_permit::ship_words(start::hw_of(input), &mut words);
    let today = start::today_of(input);
    let days = start::days_of(input);
    let t = rows::list_lines(&input[19..], &words, today, days, out);
    totals::put_totals(out, t)
}

// What the look-through prints for an input, at the output's start; 108 where that has not the room for it.
pub fn look_through(input: &[u8], out: &mut [u8]) -> Result<usize, Refusal>
    ensures { (result ≡ written_of (reported input.now (length out.old)))
        × (out.new ≡ lent_after (reported input.now (length out.old)) out.old) }
{
    if out.len() < room_for(input) {
        return Err(Refusal::Room);
    }
    Ok(match start::judge_start(input) {
        Ok(()) => list_all(input, out),
        Err(refusal) => totals::put_refused(out, refusal.number()),
    })
}
