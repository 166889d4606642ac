// Values as text, and numbers in words, for C.
ghost use Rattle.std.specs.Prelude.{◌≡◌};
ghost use Rattle.spelling.specs.Spelling.{name_from, hw_id_from, code_from, key_from, date_from, name_to, hw_id_to, code_to, key_to, date_to};
ghost use Rattle.meanings.specs.Meanings.{is_success, meaning_of};
ghost use Rattle.lambukir.specs.Texts.{version, one_if, text_for};

use spelling::{from_text, to_text};

// What C gets of a text that is none, since it has no Option: LAMBUKIR_NO_NAME and its like of the header.
const NONE_64: u64 = 0xffff_ffff_ffff_ffff;

const NONE_32: u32 = 0xffff_ffff;

// lambukir_text of the header.
#[repr(C)]
#[derive(Clone, Copy)]
pub struct Text {
    pub text: [u8; 64],
}

#[unsafe(no_mangle)]
pub extern "C" fn lambukir_version() -> u32
    ensures { result ≡ version }
{
    1400
}

#[unsafe(no_mangle)]
pub extern "C" fn lambukir_is_success(number: u32) -> u32
    ensures { result ≡ one_if (is_success number) }
{
    u32::from(meanings::is_success(number))
}

#[unsafe(no_mangle)]
pub extern "C" fn lambukir_meaning(number: u32) -> Text
    ensures { result ≡ text_for (meaning_of number) }
{
    Text {
        text: meanings::meaning(number),
    }
}

#[unsafe(no_mangle)]
pub extern "C" fn lambukir_name_from_text(text: &[u8]) -> u64
    ensures { result ≡ name_from text.now }
{
    from_text::name_read(text).unwrap_or(NONE_64)
}

#[unsafe(no_mangle)]
pub extern "C" fn lambukir_hw_id_from_text(text: &[u8]) -> u64
    ensures { result ≡ hw_id_from text.now }
{
    from_text::hw_id_read(text).unwrap_or(NONE_64)
}

#[unsafe(no_mangle)]
pub extern "C" fn lambukir_code_from_text(text: &[u8]) -> u32
    ensures { result ≡ code_from text.now }
{
    from_text::code_read(text).unwrap_or(NONE_32)
}

#[unsafe(no_mangle)]
pub extern "C" fn lambukir_key_from_hex(text: &[u8]) -> u64
    ensures { result ≡ key_from text.now }
{
    from_text::key_read(text).unwrap_or(NONE_64)
}

#[unsafe(no_mangle)]
pub extern "C" fn lambukir_date_from_text(text: &[u8]) -> u32
    ensures { result ≡ date_from text.now }
{
    from_text::date_read(text).unwrap_or(NONE_32)
}

#[unsafe(no_mangle)]
pub extern "C" fn lambukir_name_to_text(name: u64) -> Text
    ensures { result ≡ text_for (name_to name) }
{
    Text {
        text: to_text::name_to(name),
    }
}

#[unsafe(no_mangle)]
pub extern "C" fn lambukir_hw_id_to_text(hw: u64) -> Text
    ensures { result ≡ text_for (hw_id_to hw) }
{
    Text {
        text: to_text::hw_id_to(hw),
    }
}

#[unsafe(no_mangle)]
pub extern "C" fn lambukir_code_to_text(code: u32) -> Text
    ensures { result ≡ text_for (code_to code) }
{
    Text {
        text: to_text::code_to(code),
    }
}

#[unsafe(no_mangle)]
pub extern "C" fn lambukir_key_to_hex(key: u64) -> Text
    ensures { result ≡ text_for (key_to key) }
{
    Text {
        text: to_text::key_to(key),
    }
}

#[unsafe(no_mangle)]
pub extern "C" fn lambukir_date_to_text(date: u32) -> Text
    ensures { result ≡ text_for (date_to date) }
{
    Text {
        text: to_text::date_to(date),
    }
}
