// Identifiers as numbers: whether the bytes of a number have an identifier's form. Each has the rules' own name; what they share is is_hex_5 and is_name_2.
ghost use Rattle.std.specs.Prelude.{◌≡◌};
ghost use Rattle.text.specs.Characters.{is_upper_hex, is_name_character};
ghost use Rattle.forms.specs.Identifiers.{is_text, is_hw_id, is_upper_hw_id, raised_hw_id, is_mKey, is_mId, is_cell_name, is_producer, is_server_id};

use text::names::{are_hex_characters, are_name_characters};

// Whether x is the number of five of 0-9 A-F, tested at once with "000" before them.
fn is_hex_5(x: u64) -> bool
    ensures { result ≡ is_text is_upper_hex 5 x }
{
    x < 0x100_0000_0000 && are_hex_characters(0x3030_3000_0000_0000 + x)
}

// Whether x is the number of two of A-Z 0-9, tested at once with "000000" before them.
fn is_name_2(x: u32) -> bool
    ensures { result ≡ is_text is_name_character 2 x }
{
    x < 0x1_0000 && are_name_characters(0x3030_3030_3030_0000 + x as u64)
}

// HW_ID as it is used: five of 0-9 A-F.
pub fn is_upper_hw_id(x: u64) -> bool
    ensures { result ≡ is_upper_hw_id x }
{
    is_hex_5(x)
}

// A HW_ID with its letters raised; a number of more than five bytes as it is. Most come in upper case, which costs one test.
pub fn raised_hw_id(x: u64) -> u64
    ensures { result ≡ raised_hw_id x }
{
    if is_hex_5(x) {
        return x;
    }
    if 0x100_0000_0000 <= x {
        return x;
    }
    let mut raised = [0u8; 5];
    text::writing::put_raised(&mut raised, 0, &octets::numbers::bytes40(x));
    octets::numbers::number40(&raised, 0)
}

// HW_ID as it is given to us: five of 0-9 A-F a-f.
pub fn is_hw_id(x: u64) -> bool
    ensures { result ≡ is_hw_id x }
{
    is_hex_5(raised_hw_id(x))
}

// M_KEY: five of 0-9 A-F.
pub fn is_m_key(x: u64) -> bool
    ensures { result ≡ is_mKey x }
{
    is_hex_5(x)
}

// M_ID: two of A-Z 0-9.
pub fn is_m_id(x: u32) -> bool
    ensures { result ≡ is_mId x }
{
    is_name_2(x)
}

// Cell name: eight of A-Z 0-9.
pub fn is_cell_name(x: u64) -> bool
    ensures { result ≡ is_cell_name x }
{
    are_name_characters(x)
}

// Producer, as a cell name begins: two of A-Z 0-9.
pub fn is_producer(x: u32) -> bool
    ensures { result ≡ is_producer x }
{
    is_name_2(x)
}

// Data Server ID: two of A-Z 0-9.
pub fn is_server_id(x: u32) -> bool
    ensures { result ≡ is_server_id x }
{
    is_name_2(x)
}
