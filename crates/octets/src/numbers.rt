// Big-endian numbers in bytes.
ghost use Rattle.std.specs.Prelude.{◌≡◌, ◌+◌, ◌≤◌, leb, length};
ghost use Rattle.octets.specs.Numbers.{bytes_of};
ghost use Rattle.octets.specs.Places.{number_at};

// Whether n bytes from place at lie within s.
pub fn lies_within(s: &[u8], at: usize, n: usize) -> bool
    ensures { result ≡ leb (at + n) (length s.now) }
{
    at <= s.len() && n <= s.len() - at
}

// The number of one, two, four, five or eight bytes that lie within s. Each is made of smaller ones, and has the type that holds it: a function over
// the count would answer all of them in 64 bits, and five bytes have no type of their own.
fn one_byte(s: &[u8], at: usize) -> u8
    requires { at + 1 ≤ length s.now }
    ensures { result ≡ number_at 1 s.now at }
{
    s[at]
}

fn two_bytes(s: &[u8], at: usize) -> u16
    requires { at + 2 ≤ length s.now }
    ensures { result ≡ number_at 2 s.now at }
{
    one_byte(s, at) as u16 * 256 + one_byte(s, at + 1) as u16
}

fn four_bytes(s: &[u8], at: usize) -> u32
    requires { at + 4 ≤ length s.now }
    ensures { result ≡ number_at 4 s.now at }
{
    two_bytes(s, at) as u32 * 65536 + two_bytes(s, at + 2) as u32
}

fn five_bytes(s: &[u8], at: usize) -> u64
    requires { at + 5 ≤ length s.now }
    ensures { result ≡ number_at 5 s.now at }
{
    one_byte(s, at) as u64 * 4294967296 + four_bytes(s, at + 1) as u64
}

// Four pairs, and not two halves: of these the compiler makes one load.
fn eight_bytes(s: &[u8], at: usize) -> u64
    requires { at + 8 ≤ length s.now }
    ensures { result ≡ number_at 8 s.now at }
{
    two_bytes(s, at) as u64 * 281474976710656
        + two_bytes(s, at + 2) as u64 * 4294967296
        + two_bytes(s, at + 4) as u64 * 65536
        + two_bytes(s, at + 6) as u64
}

// The number of the two bytes from place at; 0 where they do not lie within s.
pub fn number16(s: &[u8], at: usize) -> u16
    ensures { result ≡ number_at 2 s.now at }
{
    if lies_within(s, at, 2) {
        two_bytes(s, at)
    } else {
        0
    }
}

// The same of four bytes.
pub fn number32(s: &[u8], at: usize) -> u32
    ensures { result ≡ number_at 4 s.now at }
{
    if lies_within(s, at, 4) {
        four_bytes(s, at)
    } else {
        0
    }
}

// The same of five bytes.
pub fn number40(s: &[u8], at: usize) -> u64
    ensures { result ≡ number_at 5 s.now at }
{
    if lies_within(s, at, 5) {
        five_bytes(s, at)
    } else {
        0
    }
}

// The same of eight bytes.
pub fn number64(s: &[u8], at: usize) -> u64
    ensures { result ≡ number_at 8 s.now at }
{
    if lies_within(s, at, 8) {
        eight_bytes(s, at)
    } else {
        0
    }
}

// The two bytes of x.
pub fn bytes16(x: u16) -> [u8; 2]
    ensures { result ≡ bytes_of 2 x }
{
    x.to_be_bytes()
}

// The four bytes of x.
pub fn bytes32(x: u32) -> [u8; 4]
    ensures { result ≡ bytes_of 4 x }
{
    x.to_be_bytes()
}

// The low five bytes of x.
pub fn bytes40(x: u64) -> [u8; 5]
    ensures { result ≡ bytes_of 5 x }
{
    let [_, _, _, a, b, c, d, e] = x.to_be_bytes();
    [a, b, c, d, e]
}

// The eight bytes of x.
pub fn bytes64(x: u64) -> [u8; 8]
    ensures { result ≡ bytes_of 8 x }
{
    x.to_be_bytes()
}
