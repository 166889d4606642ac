// What tests/ and bench/ reach of the leaf crates beside the C interface. Nothing that is shipped uses it.
#![tactic(auto)]

ghost use Rattle.std.specs.Prelude.{◌≡◌, ◌%◌};
ghost use Rattle.octets.specs.Numbers.{bytes_of};
ghost use Rattle.octets.specs.Places.{number_at};
ghost use Rattle.octets.specs.Padding.{pad_of, unpad_of};
ghost use Rattle.text.specs.Characters.{is_digit, is_upper_hex, is_name_character, raised, hex_value, hex_character, digit_value, digit_character};
ghost use Rattle.dates.specs.Calendar.{is_date, day_number};
ghost use Rattle.dates.specs.Notice.{days_left, notice_of, notice_number};
ghost use Rattle.blowfish.specs.Cipher.{encipher_of, decipher_of};
ghost use Rattle.blowfish.specs.Schedule.{key_number, scheduled};
ghost use Rattle.probe.specs.Forms.{days_form, unpadded_form};

// C takes a whole number and an Option apart into fields.
#[repr(C)]
#[derive(Clone, Copy)]
pub struct ProbeDaysLeft {
    pub passed: u32,
    pub days: u32,
}

#[repr(C)]
#[derive(Clone, Copy)]
pub struct ProbeUnpadded {
    pub value: u64,
    pub right: u32,
}

#[unsafe(no_mangle)]
pub extern "C" fn probe_key_schedule(key: &[u8], words: &mut [u32; 1042]) -> u32
    ensures { (result ≡ key_number key.now) × (words.new ≡ scheduled key.now words.old) }
{
    blowfish::key_schedule(key, words)
}

#[unsafe(no_mangle)]
pub extern "C" fn probe_encipher(words: &[u32; 1042], block: u64) -> u64
    ensures { result ≡ encipher_of words.now block }
{
    blowfish::encipher(words, block)
}

#[unsafe(no_mangle)]
pub extern "C" fn probe_decipher(words: &[u32; 1042], block: u64) -> u64
    ensures { result ≡ decipher_of words.now block }
{
    blowfish::decipher(words, block)
}

#[unsafe(no_mangle)]
pub extern "C" fn probe_is_date(date: u32) -> bool
    ensures { result ≡ is_date date }
{
    dates::is_date(date)
}

#[unsafe(no_mangle)]
pub extern "C" fn probe_day_number(date: u32) -> u32
    ensures { result ≡ day_number date }
{
    dates::day_number(date)
}

#[unsafe(no_mangle)]
pub extern "C" fn probe_days_left(today: u32, expiry: u32) -> ProbeDaysLeft
    ensures { result ≡ days_form (days_left today expiry) }
{
    let left = dates::days_left(today, expiry);
    ProbeDaysLeft {
        passed: u32::from(left < 0),
        days: left.unsigned_abs(),
    }
}

#[unsafe(no_mangle)]
pub extern "C" fn probe_notice(level: u32, today: u32, expiry: u32, days: u32) -> u32
    ensures { result ≡ notice_number (notice_of level (days_left today expiry) days) }
{
    dates::notice_number(dates::notice_of(level, today, expiry, days))
}

#[unsafe(no_mangle)]
pub extern "C" fn probe_raised(c: u8) -> u32
    ensures { result ≡ raised c }
{
    text::characters::raised(c) as u32
}

#[unsafe(no_mangle)]
pub extern "C" fn probe_hex_value(c: u8) -> u32
    ensures { result ≡ hex_value c }
{
    text::characters::hex_value(c) as u32
}

#[unsafe(no_mangle)]
pub extern "C" fn probe_hex_character(v: u8) -> u32
    ensures { result ≡ hex_character (v % 16) }
{
    text::characters::hex_character(v) as u32
}

#[unsafe(no_mangle)]
pub extern "C" fn probe_digit_value(c: u8) -> u32
    ensures { result ≡ digit_value c }
{
    text::characters::digit_value(c) as u32
}

#[unsafe(no_mangle)]
pub extern "C" fn probe_digit_character(v: u8) -> u32
    ensures { result ≡ digit_character (v % 10) }
{
    text::characters::digit_character(v) as u32
}

#[unsafe(no_mangle)]
pub extern "C" fn probe_is_digit(c: u8) -> bool
    ensures { result ≡ is_digit c }
{
    text::characters::is_digit(c)
}

#[unsafe(no_mangle)]
pub extern "C" fn probe_is_upper_hex(c: u8) -> bool
    ensures { result ≡ is_upper_hex c }
{
    text::characters::is_upper_hex(c)
}

#[unsafe(no_mangle)]
pub extern "C" fn probe_is_name_character(c: u8) -> bool
    ensures { result ≡ is_name_character c }
{
    text::characters::is_name_character(c)
}

#[unsafe(no_mangle)]
pub extern "C" fn probe_number16(s: &[u8], at: usize) -> u64
    ensures { result ≡ number_at 2 s.now at }
{
    octets::numbers::number16(s, at) as u64
}

#[unsafe(no_mangle)]
pub extern "C" fn probe_number32(s: &[u8], at: usize) -> u64
    ensures { result ≡ number_at 4 s.now at }
{
    octets::numbers::number32(s, at) as u64
}

#[unsafe(no_mangle)]
pub extern "C" fn probe_number40(s: &[u8], at: usize) -> u64
    ensures { result ≡ number_at 5 s.now at }
{
    octets::numbers::number40(s, at)
}

#[unsafe(no_mangle)]
pub extern "C" fn probe_number64(s: &[u8], at: usize) -> u64
    ensures { result ≡ number_at 8 s.now at }
{
    octets::numbers::number64(s, at)
}

#[unsafe(no_mangle)]
pub extern "C" fn probe_bytes16(x: u16, out: &mut [u8; 2])
    ensures { out.new ≡ bytes_of 2 x }
{
    *out = octets::numbers::bytes16(x);
}

#[unsafe(no_mangle)]
pub extern "C" fn probe_bytes32(x: u32, out: &mut [u8; 4])
    ensures { out.new ≡ bytes_of 4 x }
{
    *out = octets::numbers::bytes32(x);
}

#[unsafe(no_mangle)]
pub extern "C" fn probe_bytes40(x: u64, out: &mut [u8; 5])
    ensures { out.new ≡ bytes_of 5 x }
{
    *out = octets::numbers::bytes40(x);
}

#[unsafe(no_mangle)]
pub extern "C" fn probe_bytes64(x: u64, out: &mut [u8; 8])
    ensures { out.new ≡ bytes_of 8 x }
{
    *out = octets::numbers::bytes64(x);
}

#[unsafe(no_mangle)]
pub extern "C" fn probe_pad32(x: u32) -> u64
    ensures { result ≡ pad_of 4 x }
{
    octets::padding::pad32(x)
}

#[unsafe(no_mangle)]
pub extern "C" fn probe_pad40(x: u64) -> u64
    ensures { result ≡ pad_of 5 x }
{
    octets::padding::pad40(x)
}

fn unpadded(read: Option<u64>) -> ProbeUnpadded
    ensures { result ≡ unpadded_form read }
{
    match read {
        Some(value) => ProbeUnpadded { value, right: 1 },
        None => ProbeUnpadded { value: 0, right: 0 },
    }
}

#[unsafe(no_mangle)]
pub extern "C" fn probe_unpad32(block: u64) -> ProbeUnpadded
    ensures { result ≡ unpadded_form (unpad_of 4 block) }
{
    unpadded(octets::padding::unpad32(block))
}

#[unsafe(no_mangle)]
pub extern "C" fn probe_unpad40(block: u64) -> ProbeUnpadded
    ensures { result ≡ unpadded_form (unpad_of 5 block) }
{
    unpadded(octets::padding::unpad40(block))
}
