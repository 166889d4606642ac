// Bytes and texts at places of a slice: their alphabet, and the numbers that they are.
ghost use Rattle.std.specs.Prelude.{◌≡◌, ◌+◌, slice_index};
ghost use Rattle.std.specs.List.{list_all};
ghost use Rattle.text.specs.Characters.{test_of};
ghost use Rattle.text.specs.Bases.{number_at};
ghost use Rattle.text.specs.Texts.{all_at, stands_at, hex_at, decimal_at};

use super::characters::{Alphabet, is_of};
use super::digits::{Base, number_in};
use octets::numbers::lies_within;

// The byte at a place; 0 beyond the end.
pub fn byte_at(s: &[u8], at: usize) -> u8
    ensures { result ≡ slice_index s.now at }
{
    s.get(at).copied().unwrap_or(0)
}

// Whether all the bytes of a text are of the alphabet.
fn are_all(alphabet: Alphabet, text: &[u8]) -> bool
    ensures { result ≡ list_all (test_of alphabet) text.now }
{
    text.iter().all(|&c| is_of(alphabet, c))
}

// Whether the n bytes of s from place at lie within s and are all of the alphabet.
pub fn all_of(alphabet: Alphabet, s: &[u8], at: usize, n: usize) -> bool
    ensures { result ≡ all_at (test_of alphabet) n s.now at }
{
    lies_within(s, at, n) && are_all(alphabet, &s[at..at + n])
}

// Whether the text stands at a place of s; the empty text stands at every place.
pub fn stands_at(text: &[u8], s: &[u8], at: usize) -> bool
    ensures { result ≡ stands_at text.now s.now at }
{
    if at <= s.len() {
        s[at..].starts_with(text)
    } else {
        text.is_empty()
    }
}

// The number of the n digits from place at; None where they are not all digits, do not lie within s, or are more than are read.
fn number_at(base: Base, s: &[u8], at: usize, n: usize) -> Option<u64>
    ensures { result ≡ number_at base n s.now at }
{
    if base.most() < n {
        return None;
    }
    if !lies_within(s, at, n) {
        return None;
    }
    number_in(base, &s[at..at + n])
}

// The number of the n hex characters from place at; None where they are not all hex, do not lie within s, or are more than 16.
pub fn hex_at(s: &[u8], at: usize, n: usize) -> Option<u64>
    ensures { result ≡ hex_at n s.now at }
{
    number_at(Base::Hex, s, at, n)
}

// The number of the n digits from place at; None where they are not all digits, do not lie within s, or are more than 19.
pub fn decimal_at(s: &[u8], at: usize, n: usize) -> Option<u64>
    ensures { result ≡ decimal_at n s.now at }
{
    number_at(Base::Decimal, s, at, n)
}
