// Numbers as digits, in hex and in decimal: read from their characters, and written in them.
ghost use Rattle.std.specs.Prelude.{◌≡◌, ◌≤◌, ◌%◌, length};
ghost use Rattle.text.specs.Bases.{base_of, most_of, value_in, character_in, number_in, digits_in};

use super::characters::{digit_character, digit_value, hex_character, hex_value};

// How many digits are read at most: their number fits into 64 bits.
const MOST_HEX: usize = 16;

const MOST_DECIMAL: usize = 19;

// The bases that a number is written in.
#[derive(Clone, Copy)]
pub enum Base {
    Hex,
    Decimal,
}

impl Base {
    // 16 or 10.
    fn number(self) -> u8
        ensures { result ≡ base_of self }
    {
        match self {
            Base::Hex => 16,
            Base::Decimal => 10,
        }
    }

    // How many digits are read at most.
    pub(crate) fn most(self) -> usize
        ensures { result ≡ most_of self }
    {
        match self {
            Base::Hex => MOST_HEX,
            Base::Decimal => MOST_DECIMAL,
        }
    }

    // What a character stands for; the base for one that is no digit.
    fn value(self, c: u8) -> u8
        ensures { result ≡ value_in self c }
    {
        match self {
            Base::Hex => hex_value(c),
            Base::Decimal => digit_value(c),
        }
    }

    // The character of the remainder by the base.
    fn character(self, v: u8) -> u8
        ensures { result ≡ character_in self (v % base_of self) }
    {
        match self {
            Base::Hex => hex_character(v),
            Base::Decimal => digit_character(v),
        }
    }
}

// The number of a text of digits; None where one of its characters is none.
pub(crate) fn number_in(base: Base, text: &[u8]) -> Option<u64>
    requires { length text.now ≤ most_of base }
    ensures { result ≡ number_in base text.now }
{
    let b = base.number();
    let mut x: u64 = 0;
    for &c in text {
        let v = base.value(c);
        if v >= b {
            return None;
        }
        x = x * b as u64 + v as u64;
    }
    Some(x)
}

// The lowest digits of x, as many as there are places.
pub(crate) fn put_digits(base: Base, out: &mut [u8], x: u64)
    ensures { out.new ≡ digits_in base (length out.old) x }
{
    let b = base.number() as u64;
    let mut rest = x;
    for i in (0..out.len()).rev() {
        out[i] = base.character((rest % b) as u8);
        rest = rest / b;
    }
}
