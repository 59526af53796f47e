//! Reading numbers at a place in some bytes.

ghost use Rattle.std.specs.Prelude.{◌<◌, ◌≤◌, ◌^◌, ◌+◌, [], ◌∷◌, length, ⊤, IfSome};
ghost use Rattle.std.specs.Int.{w16, w32, w64, to_be_bytes};
ghost use Rattle.fleet_block.specs.Finds.{Finds};

use bytes::Bytes;

/// The byte at this place, and the place after it.
pub(crate) fn byte_at(bytes: &Bytes, place: usize) -> Option<(u8, usize)>
    requires { place ≤ length bytes.now }
    ensures found { Finds (λ n. n) (λ n. n ∷ []) (λ n. ⊤) bytes.now place result }
    ensures within { IfSome result (λ f. f.1 ≤ length bytes.now) }
{
    let byte = *bytes.as_slice().get(place)?;
    Some((byte, place + 1))
}

/// The number of 16 bits at this place, and the place after it.
pub(crate) fn u16_at(bytes: &Bytes, place: usize) -> Option<(u16, usize)>
    requires { place ≤ length bytes.now }
    ensures found { Finds (λ n. n) (to_be_bytes w16) (λ n. n < 2 ^ 16) bytes.now place result }
    ensures within { IfSome result (λ f. f.1 ≤ length bytes.now) }
{
    let part = bytes.as_slice()[place..].first_chunk::<2>()?;
    Some((u16::from_be_bytes(*part), place + 2))
}

/// The number of 32 bits at this place, and the place after it.
pub(crate) fn u32_at(bytes: &Bytes, place: usize) -> Option<(u32, usize)>
    requires { place ≤ length bytes.now }
    ensures found { Finds (λ n. n) (to_be_bytes w32) (λ n. n < 2 ^ 32) bytes.now place result }
    ensures within { IfSome result (λ f. f.1 ≤ length bytes.now) }
{
    let part = bytes.as_slice()[place..].first_chunk::<4>()?;
    Some((u32::from_be_bytes(*part), place + 4))
}

/// The number of 64 bits at this place, and the place after it.
pub(crate) fn u64_at(bytes: &Bytes, place: usize) -> Option<(u64, usize)>
    requires { place ≤ length bytes.now }
    ensures found { Finds (λ n. n) (to_be_bytes w64) (λ n. n < 2 ^ 64) bytes.now place result }
    ensures within { IfSome result (λ f. f.1 ≤ length bytes.now) }
{
    let part = bytes.as_slice()[place..].first_chunk::<8>()?;
    Some((u64::from_be_bytes(*part), place + 8))
}
