// A ship's user permit, made and read.
#![tactic(auto)]

ghost use Rattle.std.specs.Prelude.{◌≡◌, ◌++◌, ◌≤◌, length, drop};
ghost use Rattle.octets.specs.Padding.{pad_of, unpad_of};
ghost use Rattle.text.specs.Characters.{raised_text};
ghost use Rattle.text.specs.Texts.{part};
ghost use Rattle.crc32.specs.Crc32.{crc32_of};
ghost use Rattle.blowfish.specs.Cipher.{encipher_of, decipher_of};
ghost use Rattle.forms.specs.Identifiers.{raised_hw_id};
ghost use Rattle.forms.specs.Output.{written_of, lent_after};
ghost use Rattle.user_permit.specs.UserPermit.{maker_words, user_permit, made, ship_of, permit_says, read_permit};

use forms::identifiers::{is_hw_id, is_upper_hw_id, raised_hw_id};
use forms::refusals::Refusal;
use register::{is_register, key_of};
use text::reading::hex_at;
use text::writing::{put_hex, put_raised};

pub mod register; // register.rt: the manufacturers' M_IDs and M_KEYs

// What a user permit says.
#[derive(Clone, Copy)]
pub struct Ship {
    pub hw_id: u64,
    pub m_id: u32,
}

// The words of an M_KEY, which is a key of five bytes.
fn maker_words(key: u64, words: &mut [u32; 1042])
    ensures { words.new ≡ maker_words key }
{
    let bytes = octets::numbers::bytes40(key);
    blowfish::key_schedule(&bytes, words);
}

// The HW_ID, its letters raised, padded and enciphered under M_KEY.
fn enciphered(key: u64, hw: u64) -> u64
    ensures { result ≡ encipher_of (maker_words key) (pad_of 5 (raised_hw_id hw)) }
{
    let mut words = [0u32; 1042];
    maker_words(key, &mut words);
    blowfish::encipher(&words, octets::padding::pad40(raised_hw_id(hw)))
}

// The block deciphered under M_KEY, without its padding.
fn deciphered(key: u64, block: u64) -> Option<u64>
    ensures { result ≡ unpad_of 5 (decipher_of (maker_words key) block) }
{
    let mut words = [0u32; 1042];
    maker_words(key, &mut words);
    octets::padding::unpad40(blowfish::decipher(&words, block))
}

// The three parts at the output's start; the CRC-32 is that of the 16 characters as they stand there.
fn put_permit(key: u64, hw: u64, m: u32, out: &mut [u8])
    requires { 28 ≤ length out.old }
    ensures { out.new ≡ user_permit key hw m ++ drop 28 out.old }
{
    put_hex(out, 0, 16, enciphered(key, hw));
    let crc = crc32::crc32(&out[..16]);
    put_hex(out, 16, 8, crc as u64);
    put_hex(out, 24, 4, m as u64);
}

// The user permit of the HW_ID hw for the manufacturer whose M_ID is m: 28 characters.
#[tactic(auto, using(crate::proofs::UserPermits::permit_length), unfolding(crate::specs::UserPermit::made))]
pub fn make_user_permit(register: &[u8], hw: u64, m: u32, out: &mut [u8]) -> Result<usize, Refusal>
    ensures { (result ≡ written_of (made register.now hw m (length out.old))) × (out.new ≡ lent_after (made register.now hw m (length out.old)) out.old) }
{
    if !is_register(register) {
        return Err(Refusal::Register);
    }
    if out.len() < 28 {
        return Err(Refusal::Room);
    }
    if !is_hw_id(hw) {
        return Err(Refusal::HwId);
    }
    let key = key_of(register, m).ok_or(Refusal::MId)?;
    put_permit(key, hw, m, out);
    Ok(28)
}

// The ship of a block: its HW_ID must have its padding and its form, in upper case.
fn ship_of(key: u64, block: u64, m: u32) -> Result<Ship, Refusal>
    ensures { result ≡ ship_of (unpad_of 5 (decipher_of (maker_words key) block)) m }
{
    let hw = deciphered(key, block).ok_or(Refusal::HwId)?;
    if !is_upper_hw_id(hw) {
        return Err(Refusal::HwId);
    }
    Ok(Ship { hw_id: hw, m_id: m })
}

// The CRC-32 of the 16 characters with their letters raised. A function for both this and a line's 48 would hand an array back by value.
fn crc_of(permit: &[u8]) -> u32
    requires { 16 ≤ length permit.now }
    ensures { result ≡ crc32_of (raised_text (part 16 permit.now 0)) }
{
    let mut raised = [0u8; 16];
    put_raised(&mut raised, 0, &permit[..16]);
    crc32::crc32(&raised)
}

// The HW_ID and M_ID that a user permit says, by a register that the caller has judged.
#[tactic(auto, using(crate::proofs::UserPermits::text_by_parts, crate::proofs::UserPermits::m_id_fits), unfolding(crate::specs::UserPermit::permit_says, crate::specs::UserPermit::is_crc_right, text::specs::Texts::hex_at))]
pub fn read_by(register: &[u8], permit: &[u8]) -> Result<Ship, Refusal>
    ensures { result ≡ permit_says register.now permit.now }
{
    if permit.len() != 28 {
        return Err(Refusal::UserPermit);
    }
    let block = hex_at(permit, 0, 16).ok_or(Refusal::UserPermit)?;
    let check = hex_at(permit, 16, 8).ok_or(Refusal::UserPermit)?;
    let m = hex_at(permit, 24, 4).ok_or(Refusal::UserPermit)?;
    if check != crc_of(permit) as u64 {
        return Err(Refusal::PermitCrc);
    }
    let key = key_of(register, m as u32).ok_or(Refusal::MId)?;
    ship_of(key, block, m as u32)
}

// The same by any register: 109 for a damaged one.
#[tactic(auto, unfolding(crate::specs::UserPermit::read_permit))]
pub fn read_user_permit(register: &[u8], permit: &[u8]) -> Result<Ship, Refusal>
    ensures { result ≡ read_permit register.now permit.now }
{
    if !is_register(register) {
        return Err(Refusal::Register);
    }
    read_by(register, permit)
}
