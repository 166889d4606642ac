// The value of a text, where the text is one.
ghost use Rattle.std.specs.Prelude.{◌≡◌};
ghost use Rattle.text.specs.Characters.{test_of};
ghost use Rattle.spelling.specs.Spelling.{is_word, name_read, hw_id_read, code_read, key_read, date_read};

use text::characters::Alphabet;

// Whether the text is exactly n characters of the alphabet.
#[tactic(auto, using(crate::proofs::Words::other_length, crate::proofs::Words::whole_word))]
fn is_word(alphabet: Alphabet, text: &[u8], n: usize) -> bool
    ensures { result ≡ is_word (test_of alphabet) n text.now }
{
    text.len() == n && text::reading::all_of(alphabet, text, 0, n)
}

// Cell name.
#[tactic(auto, using(crate::proofs::Words::no_identifier, crate::proofs::Words::identifier_of))]
pub fn name_read(text: &[u8]) -> Option<u64>
    ensures { result ≡ name_read text.now }
{
    is_word(Alphabet::Name, text, 8).then(|| octets::numbers::number64(text, 0))
}

// HW_ID: its letters are raised.
#[tactic(auto, using(crate::proofs::Words::no_hw_id, crate::proofs::Words::no_identifier, crate::proofs::Words::identifier_of, text::proofs::PutTexts::raised_whole))]
pub fn hw_id_read(text: &[u8]) -> Option<u64>
    ensures { result ≡ hw_id_read text.now }
{
    if text.len() != 5 {
        return None;
    }
    let mut raised = [0u8; 5];
    text::writing::put_raised(&mut raised, 0, text);
    is_word(Alphabet::UpperHex, &raised, 5).then(|| octets::numbers::number40(&raised, 0))
}

// M_ID, Data Server ID or producer. As one with cell names this would need a width and its number type as parameters, and be no plainer.
#[tactic(auto, using(crate::proofs::Words::no_identifier, crate::proofs::Words::identifier_of))]
pub fn code_read(text: &[u8]) -> Option<u32>
    ensures { result ≡ code_read text.now }
{
    is_word(Alphabet::Name, text, 2).then(|| u32::from(octets::numbers::number16(text, 0)))
}

// Cell key.
#[tactic(auto, using(crate::proofs::Words::no_key, crate::proofs::Words::key_word))]
pub fn key_read(text: &[u8]) -> Option<u64>
    ensures { result ≡ key_read text.now }
{
    if !is_word(Alphabet::UpperHex, text, 10) {
        return None;
    }
    text::reading::hex_at(text, 0, 10)
}

// Date.
#[tactic(auto, using(crate::proofs::Words::no_date_length, crate::proofs::Words::date_word, forms::proofs::DateTexts::date_small))]
pub fn date_read(text: &[u8]) -> Option<u32>
    ensures { result ≡ date_read text.now }
{
    if text.len() != 8 {
        return None;
    }
    let date = forms::date_text::date_at(text, 0)?;
    Some(date as u32)
}
