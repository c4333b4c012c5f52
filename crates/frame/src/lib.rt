// Numbers from the bytes of a frame, little-endian, and the smaller of two sizes.
//
// A byte beyond the end of a frame counts as 0, so that every place has a number.
#![tactic(auto)]

ghost use Rattle.std.specs.Prelude.{◌≡◌, ◌+◌, ◌<◌, ℕ, drop, min, get_or};
ghost use Rattle.std.specs.Int.{Width};
ghost use Rattle.std.proofs.Common.{to_z};
ghost use Rattle.frame.specs.Numbers.{little_endian};

// The bytes from a place on.
fn rest(bytes: &[u8], at: usize) -> &[u8]
    ensures { result.now ≡ drop at bytes.now }
{
    bytes.get(at..).unwrap_or(&[])
}

// So many bytes from a place on.
fn bytes_at<const N: usize>(bytes: &[u8], at: usize) -> [u8; N]
    ensures { (i : ℕ) → i < N → get_or result i 0 ≡ get_or bytes.now (at + i) 0 }
{
    let mut found = [0; N];
    let rest = rest(bytes, at);
    let count = rest.len().min(N);
    found[..count].copy_from_slice(&rest[..count]);
    found
}

// The byte at a place.
#[tactic(auto, unfolding(crate::specs::Numbers::little_endian))]
pub fn u8_at(bytes: &[u8], at: usize) -> u8
    ensures { result ≡ little_endian 1 bytes.now at }
{
    u8::from_le_bytes(bytes_at(bytes, at))
}

// The number of four bytes at a place.
#[tactic(auto, unfolding(crate::specs::Numbers::little_endian))]
pub fn u32_at(bytes: &[u8], at: usize) -> u32
    ensures { result ≡ little_endian 4 bytes.now at }
{
    u32::from_le_bytes(bytes_at(bytes, at))
}

// The number of eight bytes at a place.
#[tactic(auto, unfolding(crate::specs::Numbers::little_endian))]
pub fn u64_at(bytes: &[u8], at: usize) -> u64
    ensures { result ≡ little_endian 8 bytes.now at }
{
    u64::from_le_bytes(bytes_at(bytes, at))
}

// The signed number that has these bits.
pub fn signed32(n: u32) -> i32
    ensures { result ≡ to_z Width.w32 n }
{
    n.cast_signed()
}

pub fn smaller(a: usize, b: usize) -> usize
    ensures { result ≡ min a b }
{
    a.min(b)
}
