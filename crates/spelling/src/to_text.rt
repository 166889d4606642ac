// The text of a value, and zeros after it; zeros alone where the value is none.
ghost use Rattle.std.specs.Prelude.{◌≡◌};
ghost use Rattle.spelling.specs.Spelling.{name_to, hw_id_to, code_to, key_to, date_to, spelled};

// What C gets of nothing: the empty text of the definition, so an Option for each form would save no line.
const NOTHING: [u8; 64] = [0; 64];

// A text at the start of zeros.
pub fn spelled(text: &[u8]) -> [u8; 64]
    ensures { result ≡ spelled text.now }
{
    let mut out = [0u8; 64];
    text::writing::put_text(&mut out, 0, text);
    out
}

// Cell name.
#[tactic(auto, using(crate::proofs::Texts::identifier_none, crate::proofs::Texts::identifier_text))]
pub fn name_to(name: u64) -> [u8; 64]
    ensures { result ≡ spelled (name_to name) }
{
    if !forms::identifiers::is_cell_name(name) {
        return NOTHING;
    }
    spelled(&octets::numbers::bytes64(name))
}

// HW_ID: its letters are raised.
#[tactic(auto, using(crate::proofs::Texts::identifier_none, crate::proofs::Texts::identifier_text))]
pub fn hw_id_to(hw: u64) -> [u8; 64]
    ensures { result ≡ spelled (hw_id_to hw) }
{
    let raised = forms::identifiers::raised_hw_id(hw);
    if !forms::identifiers::is_upper_hw_id(raised) {
        return NOTHING;
    }
    spelled(&octets::numbers::bytes40(raised))
}

// M_ID, Data Server ID or producer.
#[tactic(auto, using(crate::proofs::Texts::identifier_none, crate::proofs::Texts::identifier_text, forms::proofs::Fits::text_fits))]
pub fn code_to(code: u32) -> [u8; 64]
    ensures { result ≡ spelled (code_to code) }
{
    if !forms::identifiers::is_m_id(code) {
        return NOTHING;
    }
    spelled(&octets::numbers::bytes16(code as u16))
}

// Cell key, in hex.
#[tactic(auto, using(crate::proofs::Texts::key_none, crate::proofs::Texts::key_text))]
pub fn key_to(key: u64) -> [u8; 64]
    ensures { result ≡ spelled (key_to key) }
{
    let mut out = [0u8; 64];
    if key < 0x100_0000_0000 {
        text::writing::put_hex(&mut out, 0, 10, key);
    }
    out
}

// Date, YYYYMMDD.
#[tactic(auto, using(crate::proofs::Texts::date_none, crate::proofs::Texts::date_text))]
pub fn date_to(date: u32) -> [u8; 64]
    ensures { result ≡ spelled (date_to date) }
{
    let mut out = [0u8; 64];
    if dates::is_date(date) {
        text::writing::put_decimal(&mut out, 0, 8, date as u64);
    }
    out
}
