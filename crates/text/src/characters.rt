// Hex characters, digits, and the alphabets.
ghost use Rattle.std.specs.Prelude.{◌≡◌, ◌+◌, ◌-◌, ◌%◌, ◌||◌, if◌then◌else◌};
ghost use Rattle.text.specs.Characters.{between, raised, is_digit, is_upper_hex, is_name_character, is_printable, test_of, hex_value, hex_character, digit_value, digit_character};

// The alphabets that a text may be written in.
#[derive(Clone, Copy)]
pub enum Alphabet {
    Digit,
    UpperHex,
    Name,
    Printable,
}

// Whether c is one of the characters from low to high.
fn within(low: u8, high: u8, c: u8) -> bool
    ensures { result ≡ between low high c }
{
    low <= c && c <= high
}

// 0-9.
pub fn is_digit(c: u8) -> bool
    ensures { result ≡ is_digit c }
{
    within(b'0', b'9', c)
}

// 0-9, or a capital letter from the first one to the last one.
fn is_digit_or_capital(first: u8, last: u8, c: u8) -> bool
    ensures { result ≡ (is_digit c || between first last c) }
{
    is_digit(c) || within(first, last, c)
}

// 0-9 A-F.
pub fn is_upper_hex(c: u8) -> bool
    ensures { result ≡ is_upper_hex c }
{
    is_digit_or_capital(b'A', b'F', c)
}

// A-Z 0-9.
pub fn is_name_character(c: u8) -> bool
    ensures { result ≡ is_name_character c }
{
    is_digit_or_capital(b'A', b'Z', c)
}

// 20 to 7E hex.
pub fn is_printable(c: u8) -> bool
    ensures { result ≡ is_printable c }
{
    within(b' ', b'~', c)
}

// Whether c is of the alphabet.
pub fn is_of(alphabet: Alphabet, c: u8) -> bool
    ensures { result ≡ test_of alphabet c }
{
    match alphabet {
        Alphabet::Digit => is_digit(c),
        Alphabet::UpperHex => is_upper_hex(c),
        Alphabet::Name => is_name_character(c),
        Alphabet::Printable => is_printable(c),
    }
}

// A letter a-z raised to A-Z; any other byte as it is.
pub fn raised(c: u8) -> u8
    ensures { result ≡ raised c }
{
    if within(b'a', b'z', c) {
        c - b'a' + b'A'
    } else {
        c
    }
}

// 10 to 15, of a small letter a to f; 16 for any other byte.
fn letter_value(c: u8) -> u8
    ensures { result ≡ (if between 97 102 c then c - 97 + 10 else 16) }
{
    if within(b'a', b'f', c) {
        c - b'a' + 10
    } else {
        16
    }
}

// 0 to 15, of a hex character in either case; 16 for any other byte, as the definition has it: one compare tells, and no Option is taken apart for each
// character. A capital has its small letter's bits but one, which is set in both.
// The letter is looked at first, so that the compiler chooses between two values: a branch between digits and letters would never be foreseen.
pub fn hex_value(c: u8) -> u8
    ensures { result ≡ hex_value c }
{
    let letter = letter_value(c | 0x20);
    if is_digit(c) { c - b'0' } else { letter }
}

// The hex character, upper case, of the low four bits.
pub fn hex_character(v: u8) -> u8
    ensures { result ≡ hex_character (v % 16) }
{
    let low = v % 16;
    if low < 10 {
        b'0' + low
    } else {
        b'A' + (low - 10)
    }
}

// 0 to 9; 10 for a byte that is no digit, as the definition has it.
pub fn digit_value(c: u8) -> u8
    ensures { result ≡ digit_value c }
{
    if is_digit(c) { c - b'0' } else { 10 }
}

// The digit of the remainder by ten.
pub fn digit_character(v: u8) -> u8
    ensures { result ≡ digit_character (v % 10) }
{
    b'0' + v % 10
}
