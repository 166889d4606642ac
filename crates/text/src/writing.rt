// Texts put at a place of a slice, which stays as it was where they do not lie within it.
ghost use Rattle.std.specs.Prelude.{◌≡◌};
ghost use Rattle.text.specs.Characters.{raised_text, hex_text, decimal_text};
ghost use Rattle.text.specs.Bases.{digits_in};
ghost use Rattle.text.specs.Texts.{placed, width};

use super::characters::raised;
use super::digits::{Base, put_digits};
use octets::numbers::lies_within;

// The bytes of a text.
pub fn put_text(out: &mut [u8], at: usize, text: &[u8])
    ensures { out.new ≡ placed at text.now out.old }
{
    let n = text.len();
    if lies_within(out, at, n) {
        out[at..at + n].copy_from_slice(text);
    }
}

// Raises the letters of a text.
fn raise(text: &mut [u8])
    ensures { text.new ≡ raised_text text.old }
{
    for c in text.iter_mut() {
        *c = raised(*c);
    }
}

// A text with its letters raised.
pub fn put_raised(out: &mut [u8], at: usize, text: &[u8])
    ensures { out.new ≡ placed at (raised_text text.now) out.old }
{
    let n = text.len();
    if lies_within(out, at, n) {
        let part = &mut out[at..at + n];
        part.copy_from_slice(text);
        raise(part);
    }
}

// The n lowest digits of x.
fn put_number(base: Base, out: &mut [u8], at: usize, n: usize, x: u64)
    ensures { out.new ≡ placed at (digits_in base n x) out.old }
{
    if lies_within(out, at, n) {
        put_digits(base, &mut out[at..at + n], x);
    }
}

// The n lowest hex digits of x as characters.
pub fn put_hex(out: &mut [u8], at: usize, n: usize, x: u64)
    ensures { out.new ≡ placed at (hex_text n x) out.old }
{
    put_number(Base::Hex, out, at, n, x);
}

// The n lowest decimal digits of x.
pub fn put_decimal(out: &mut [u8], at: usize, n: usize, x: u64)
    ensures { out.new ≡ placed at (decimal_text n x) out.old }
{
    put_number(Base::Decimal, out, at, n, x);
}

// How many decimal digits x has. The loop counts digits, and goes along nothing that an iterator could.
pub fn width(x: u64) -> usize
    ensures { result ≡ width x }
{
    let mut rest = x;
    let mut n: usize = 1;
    while 10 <= rest {
        rest = rest / 10;
        n += 1;
    }
    n
}
