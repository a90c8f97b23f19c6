ghost use Rattle.std.specs.Prelude.{◌≡◌, ℕ, List, length, Some, bytes_eq, IfSome};
ghost use Rattle.hex.specs.Hex.{encode_lower};
ghost use Rattle.ldp_spelling.specs.Hashes.{hash_in, IsHash};

use hex::{decode_to_slice, encode_to_slice};

/// The 64 digits of a hash.
pub fn hash_digits(hash: &[u8; 32]) -> [u8; 64]
    ensures { result ≡ encode_lower hash.now }
{
    let mut digits = [0; 64];
    let _ = encode_to_slice(hash.as_slice(), &mut digits);
    digits
}

#[tactic(auto, unfolding(crate::specs::Hashes::hash_in))]
fn hash(text: &[u8]) -> Option<[u8; 32]>
    ensures exact { result ≡ hash_in text.now }
{
    let mut bytes = [0; 32];
    decode_to_slice(text, &mut bytes).ok()?;
    if hash_digits(&bytes).as_slice() == text {
        Some(bytes)
    } else {
        None
    }
}

/// The hash whose digits these are. Takes no memory.
pub fn read_hash(text: &[u8]) -> Option<[u8; 32]>
    ensures exact { result ≡ hash_in text.now }
    ensures found { IfSome result (λ hash. text.now ≡ encode_lower hash) }
    ensures only { (h : List ℕ) → IsHash h → text.now ≡ encode_lower h → result ≡ Some h }
{
    hash(text)
}
