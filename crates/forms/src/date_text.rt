// A date as text: eight digits, YYYYMMDD.
ghost use Rattle.std.specs.Prelude.{◌≡◌, true};
ghost use Rattle.octets.specs.Numbers.{bytes_of};
ghost use Rattle.octets.specs.Every.{all_of};
ghost use Rattle.text.specs.Characters.{is_digit, decimal_number};
ghost use Rattle.forms.specs.DateText.{date_at};

// What the characters of eight digits are more than the digits: '0' for each.
const ZEROS: u64 = 48 * 11111111;

// The number of eight digits, which are the bytes of x.
fn number_of(x: u64) -> u64
    requires { all_of is_digit (bytes_of 8 x) ≡ true }
    ensures { result ≡ decimal_number (bytes_of 8 x) }
{
    x / 0x100_0000_0000_0000 * 10000000
        + x / 0x1_0000_0000_0000 % 256 * 1000000
        + x / 0x100_0000_0000 % 256 * 100000
        + x / 0x1_0000_0000 % 256 * 10000
        + x / 0x100_0000 % 256 * 1000
        + x / 0x1_0000 % 256 * 100
        + x / 0x100 % 256 * 10
        + x % 256
        - ZEROS
}

// The date of the eight digits at a place; None where they are none. They are tested all at once: where they do not lie within s, the number is 0.
pub fn date_at(s: &[u8], at: usize) -> Option<u64>
    ensures { result ≡ date_at s.now at }
{
    let x = octets::numbers::number64(s, at);
    if !text::names::are_digits(x) {
        return None;
    }
    let date = number_of(x);
    if !dates::is_date(date as u32) {
        return None;
    }
    Some(date)
}
