//! Numbers in an array of bytes, the lowest byte first.

ghost use Rattle.std.specs.Prelude.{◌≡◌, ◌≤◌, ◌<◌, ◌+◌, ◌^◌, length};
ghost use Rattle.ceu_mem.specs.Bytes.{number_at, with_number};

/// The number of so many bytes at a place.
pub fn number(bytes: &[u8], at: usize, width: u8) -> u64
    requires narrow { width ≤ 8 }
    requires within { at + width ≤ length bytes.now }
    ensures value { result ≡ number_at width bytes.now at }
    ensures below { result < 256 ^ width }
{
    let mut found: u64 = 0;
    let mut left = width;
    while left > 0 {
        left -= 1;
        let byte = bytes[at + left as usize];
        found = found * 256 + byte as u64;
    }
    found
}

/// Writes a number into so many bytes at a place.
pub fn set_number(bytes: &mut [u8], at: usize, width: u8, number: u64)
    requires { at + width ≤ length bytes.old }
    ensures { bytes.new ≡ with_number width number bytes.old at }
{
    let mut rest = number;
    for i in 0..width {
        bytes[at + i as usize] = (rest % 256) as u8;
        rest /= 256;
    }
}
