// Numbers of one, two and four bytes, lowest byte first.
ghost use Rattle.std.specs.Prelude.{◌≡◌, ◌+◌, ◌<◌, ◌≤◌, [], ◌∷◌, length};
ghost use Rattle.words.specs.Bytes.{number2, number4, bytes2, bytes4, Spliced};

// One function for each size, here and below: `from_le_bytes` belongs to each number's own type, so a
// trait would need an impl for each and say no less.
pub fn get_u16(bytes: &[u8], at: usize) -> u16
    requires { at + 2 ≤ length bytes.now }
    ensures { result ≡ number2 bytes.now at }
{
    u16::from_le_bytes([bytes[at], bytes[at + 1]])
}

pub fn get_u32(bytes: &[u8], at: usize) -> u32
    requires { at + 4 ≤ length bytes.now }
    ensures { result ≡ number4 bytes.now at }
{
    u32::from_le_bytes([bytes[at], bytes[at + 1], bytes[at + 2], bytes[at + 3]])
}

#[tactic(auto, using(crate::proofs::Splices::stored))]
pub fn put_u8(bytes: &mut [u8], at: usize, x: u8)
    requires { at + 1 ≤ length bytes.old }
    ensures { Spliced at (x ∷ []) bytes.old bytes.new }
{
    bytes[at] = x;
}

pub fn put_u16(bytes: &mut [u8], at: usize, x: u16)
    requires { at + 2 ≤ length bytes.old }
    ensures { Spliced at (bytes2 x) bytes.old bytes.new }
{
    bytes[at..at + 2].copy_from_slice(&x.to_le_bytes());
}

pub fn put_u32(bytes: &mut [u8], at: usize, x: u32)
    requires { at + 4 ≤ length bytes.old }
    ensures { Spliced at (bytes4 x) bytes.old bytes.new }
{
    bytes[at..at + 4].copy_from_slice(&x.to_le_bytes());
}
