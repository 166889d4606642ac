// What the first line gives, and why nothing is listed.
ghost use Rattle.std.specs.Prelude.{◌≡◌, true};
ghost use Rattle.report.specs.LookThrough.{is_first_line, hw_of, today_of, days_of, start_answer};

use forms::refusals::Refusal;
use text::characters::Alphabet;

// Whether the first line has its shape.
#[tactic(auto, unfolding(crate::specs::LookThrough::is_first_line))]
fn is_first_line(input: &[u8]) -> bool
    ensures { result ≡ is_first_line input.now }
{
    text::reading::byte_at(input, 5) == b' '
        && text::reading::byte_at(input, 14) == b' '
        && text::reading::all_of(Alphabet::Digit, input, 15, 2)
        && text::reading::stands_at(b"\r\n", input, 17)
}

// Its HW_ID.
pub(crate) fn hw_of(input: &[u8]) -> u64
    ensures { result ≡ hw_of input.now }
{
    octets::numbers::number40(input, 0)
}

// Its today; 0, which is no date, where the eight bytes are not all digits.
#[tactic(auto, unfolding(crate::specs::LookThrough::today_of, text::specs::Texts::decimal_at))]
pub(crate) fn today_of(input: &[u8]) -> u32
    ensures { result ≡ today_of input.now }
{
    match text::reading::decimal_at(input, 6, 8) {
        Some(x) => x as u32,
        None => 0,
    }
}

// Its warning days.
#[tactic(auto, using(crate::proofs::Starts::days_digits), unfolding(text::specs::Texts::decimal_at))]
pub(crate) fn days_of(input: &[u8]) -> u32
    requires { is_first_line input.now ≡ true }
    ensures { result ≡ days_of input.now }
{
    match text::reading::decimal_at(input, 15, 2) {
        Some(x) => x as u32,
        None => 0,
    }
}

// Why nothing is listed, where it is not.
#[tactic(auto, using(crate::proofs::Starts::first_within), unfolding(crate::specs::LookThrough::start_answer))]
pub(crate) fn judge_start(input: &[u8]) -> Result<(), Refusal>
    ensures { result ≡ start_answer input.now }
{
    if 65536 < input.len() || !is_first_line(input) {
        return Err(Refusal::Value);
    }
    cell_permit::judge_given(hw_of(input), today_of(input), days_of(input))?;
    permit_file::open(&input[19..])?;
    Ok(())
}
