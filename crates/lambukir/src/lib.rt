// The C interface: thin exported functions over the crates that do the work. include/lambukir.h tells a C caller the same.
#![tactic(auto)]

ghost use Rattle.std.specs.Prelude.{◌≡◌, true, false};
ghost use Rattle.std.specs.Fn.{FnOnceReturnsAt};
ghost use Rattle.crc32.specs.Crc32.{crc32_of};
ghost use Rattle.blowfish.specs.Schedule.{is_key, schedule, key_number};
ghost use Rattle.forms.specs.Refusals.{refusal_number};
ghost use Rattle.lambukir.specs.Blocks.{encipher_block, decipher_block};

use forms::refusals::Refusal;

pub mod books; // books.rt: the shared book
pub mod cells; // cells.rt: cell files
pub mod files; // files.rt: permit files
pub mod lists; // lists.rt: product lists
pub mod permits; // permits.rt: user permits and lines
pub mod texts; // texts.rt: values as text, and numbers in words

// A block of eight bytes, and 0; at 103, for a key that has not 4 to 56 bytes, the block is 0.
#[repr(C)]
#[derive(Clone, Copy)]
pub struct Block {
    pub block: u64,
    pub number: u32,
}

#[unsafe(no_mangle)]
pub extern "C" fn lambukir_crc32(bytes: &[u8]) -> u32
    ensures { result ≡ crc32_of bytes.now }
{
    crc32_long::crc32(bytes)
}

// The block that the work makes of the words of a key.
#[tactic(auto, unfolding(blowfish::specs::Schedule::key_number, blowfish::specs::Schedule::scheduled))]
fn under_key<F: FnOnce(&[u32; 1042]) -> u64>(key: &[u8], work: F) -> Block
    requires { F.IsAlwaysCallable work }
    ensures number { result.number ≡ key_number key.now }
    ensures none { is_key key.now ≡ false → result.block ≡ 0 }
    ensures some { is_key key.now ≡ true → FnOnceReturnsAt F.FnOnce work (schedule key.now) result.block }
{
    let mut words = [0u32; 1042];
    let number = blowfish::key_schedule(key, &mut words);
    if number != 0 {
        return Block { block: 0, number };
    }
    Block {
        block: work(&words),
        number: 0,
    }
}

#[tactic(auto, unfolding(crate::specs::Blocks::under_key))]
#[unsafe(no_mangle)]
pub extern "C" fn lambukir_encipher_block(key: &[u8], block: u64) -> Block
    ensures { result ≡ encipher_block key.now block }
{
    under_key(key, |words| blowfish::encipher(words, block))
}

#[tactic(auto, unfolding(crate::specs::Blocks::under_key))]
#[unsafe(no_mangle)]
pub extern "C" fn lambukir_decipher_block(key: &[u8], block: u64) -> Block
    ensures { result ≡ decipher_block key.now block }
{
    under_key(key, |words| blowfish::decipher(words, block))
}

// The number of an answer that gives nothing else: 0, or that of its refusal.
pub(crate) fn number<T: Drop>(answer: Result<T, Refusal>) -> u32
    ensures { result ≡ refusal_number answer }
{
    match answer {
        Ok(_) => 0,
        Err(refusal) => refusal.number(),
    }
}
