// The characters of a text of eight, tested all at once.
ghost use Rattle.std.specs.Prelude.{◌≡◌, ℕ, true, ◌||◌, ◌==◌};
ghost use Rattle.octets.specs.Numbers.{bytes_of};
ghost use Rattle.octets.specs.Every.{all_of};
ghost use Rattle.text.specs.Characters.{between, is_digit, is_upper_hex, is_name_character};

use std::num::wrapping_add_u64;

// The top bit of each byte.
const TOP: u64 = 0x8080_8080_8080_8080;

// What sets the top bit of each byte from '0' on, from '9' + 1, from 'A': 128 less that character.
const FROM_0: u64 = 0x5050_5050_5050_5050;

const PAST_9: u64 = 0x4646_4646_4646_4646;

const FROM_A: u64 = 0x3f3f_3f3f_3f3f_3f3f;

// What repeats a byte eight times.
const EIGHT: u64 = 0x0101_0101_0101_0101;

// Whether the eight bytes of x are all of 0-9 or from A to the last letter: F, Z, or none, which is the character before A. An odd number of the four top bits is set exactly for these characters.
// A sum carries into the next byte only from one whose own top bit is set, which is refused by itself.
fn are_digits_or_capitals(last: u8, x: u64) -> bool
    requires { (last == 64 || last == 70 || last == 90) ≡ true }
    ensures { result ≡ all_of (λ (c : ℕ). is_digit c || between 65 last c) (bytes_of 8 x) }
{
    let past = (127 - last) as u64 * EIGHT;
    let y = wrapping_add_u64(x, FROM_0)
        ^ wrapping_add_u64(x, PAST_9)
        ^ wrapping_add_u64(x, FROM_A)
        ^ wrapping_add_u64(x, past);
    y & TOP == TOP && x & TOP == 0
}

// Whether the eight bytes of x are all of 0-9.
pub fn are_digits(x: u64) -> bool
    ensures { result ≡ all_of is_digit (bytes_of 8 x) }
{
    are_digits_or_capitals(b'@', x)
}

// Whether the eight bytes of x are all of A-Z 0-9.
pub fn are_name_characters(x: u64) -> bool
    ensures { result ≡ all_of is_name_character (bytes_of 8 x) }
{
    are_digits_or_capitals(b'Z', x)
}

// Whether the eight bytes of x are all of 0-9 A-F.
pub fn are_hex_characters(x: u64) -> bool
    ensures { result ≡ all_of is_upper_hex (bytes_of 8 x) }
{
    are_digits_or_capitals(b'F', x)
}
