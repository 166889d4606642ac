// The register of manufacturers.
ghost use Rattle.std.specs.Prelude.{◌≡◌, ◌*◌, ◌<◌, length};
ghost use Rattle.user_permit.specs.Register.{is_entry, is_register, key_of};

use forms::identifiers::{is_m_id, is_m_key};
use octets::numbers::{number16, number40};

// Whether entry i has the form, and its M_ID is above that of the entry before.
#[tactic(auto, unfolding(crate::specs::Register::is_entry))]
fn is_entry(register: &[u8], i: usize) -> bool
    requires { 7 * i < length register.now }
    ensures { result ≡ is_entry register.now i }
{
    let m_id = number16(register, 7 * i);
    is_m_id(m_id as u32)
        && is_m_key(number40(register, 7 * i + 2))
        && (i == 0 || number16(register, 7 * (i - 1)) < m_id)
}

// Whether the register is undamaged.
#[tactic(auto, using(crate::proofs::Registers::entry_wrong), unfolding(crate::specs::Register::is_register, crate::specs::Register::are_entries))]
pub fn is_register(register: &[u8]) -> bool
    ensures { result ≡ is_register register.now }
{
    if register.len() % 7 != 0 || 1792 < register.len() {
        return false;
    }
    for i in 0..register.len() / 7 {
        if !is_entry(register, i) {
            return false;
        }
    }
    true
}

// The M_KEY of an M_ID, if it is in the register; of a damaged register too, since bytes that are not there are 0.
#[tactic(auto, unfolding(crate::specs::Register::key_of, crate::specs::Register::key_among))]
pub fn key_of(register: &[u8], m: u32) -> Option<u64>
    ensures { result ≡ key_of register.now m }
{
    for i in (0..register.len() / 7).rev() {
        if number16(register, 7 * i) as u32 == m {
            return Some(number40(register, 7 * i + 2));
        }
    }
    None
}
