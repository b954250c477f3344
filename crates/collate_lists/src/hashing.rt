//! The hash of a text under a seed: its bytes as a polynomial, at the point that the seed chooses, modulo a prime.

ghost use Rattle.std.specs.Prelude.{◌≡◌, ◌<◌};
ghost use Rattle.collate_lists.specs.Hashes.{hash_of};

/// The greatest prime below 2^32.
pub const PRIME: u64 = 4_294_967_291;

/// The seed where none is chosen: everyone knows it.
pub const FIXED_SEED: u64 = 6_364_136_223_846_793_005;

/// The hash of a text under a seed, by its bytes. It is above 0. To who doesn't know the seed, two texts have one hash with a
/// chance of at most their length in `PRIME`; who knows it makes as many texts of one hash as they like.
pub fn hash_of(seed: u64, bytes: &[u8]) -> usize
    ensures hash { result ≡ hash_of seed bytes.now }
    ensures positive { 0 < result }
{
    let point = seed % PRIME;
    let mut hash = 0;
    'bytes: for byte in bytes {
        hash = (hash * point + u64::from(*byte) + 1) % PRIME;
    }
    hash as usize + 1
}
