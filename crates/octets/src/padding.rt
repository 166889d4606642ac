// A number of four or five bytes filled up to a block, and back. One function for each: its numbers are settled when it is compiled, and one over the
// count would work them out from it at each call.
ghost use Rattle.std.specs.Prelude.{◌≡◌};
ghost use Rattle.octets.specs.Padding.{pad_of, unpad_of};

// The block of the four bytes of x: four 04 are added.
pub fn pad32(x: u32) -> u64
    ensures { result ≡ pad_of 4 x }
{
    x as u64 * 0x1_0000_0000 + 0x0404_0404
}

// The block of the low five bytes of x: three 03 are added.
pub fn pad40(x: u64) -> u64
    ensures { result ≡ pad_of 5 x }
{
    x % 0x100_0000_0000 * 0x100_0000 + 0x03_0303
}

// The number of four bytes that the block was made of; None where its last bytes are not the padding.
pub fn unpad32(block: u64) -> Option<u64>
    ensures { result ≡ unpad_of 4 block }
{
    if block % 0x1_0000_0000 == 0x0404_0404 {
        Some(block / 0x1_0000_0000)
    } else {
        None
    }
}

// The same of five bytes.
pub fn unpad40(block: u64) -> Option<u64>
    ensures { result ≡ unpad_of 5 block }
{
    if block % 0x100_0000 == 0x03_0303 {
        Some(block / 0x100_0000)
    } else {
        None
    }
}
