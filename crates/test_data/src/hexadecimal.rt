//! Bytes in hexadecimal, as the scripts spell them.

ghost use Rattle.std.specs.Prelude.{◌≡◌, ◌≢◌, List, ℕ, [], Ok, IfOk, IfSome, IsSome, codes, string_bytes};
ghost use Rattle.hex.specs.Hex.{decode_of, encode_lower};

use ft_io::NoMemory;
use hex::FromHexError;
use std::alloc::Global;

/// The bytes of a text in hexadecimal, if it is one.
pub fn bytes_of_hex(alloc: Global, text: &str) -> Result<Option<Vec<u8>>, NoMemory>
    ensures value { IfOk result (λ found. IfSome found (λ bytes. decode_of text.now ≡ Ok bytes.items)) }
    ensures found { (bytes : List ℕ) → decode_of text.now ≡ Ok bytes → IfOk result (λ found. IsSome found) }
{
    match hex::decode(alloc, text) {
        Ok(bytes) => Ok(Some(bytes)),
        Err(FromHexError::OutOfMemory) => Err(NoMemory),
        Err(_) => Ok(None),
    }
}

/// The bytes of a word: `-` for none, and else hexadecimal.
pub fn bytes_of_word(alloc: Global, word: &str) -> Result<Option<Vec<u8>>, NoMemory>
    ensures dash { word.now ≡ codes "-" → IfOk result (λ found. IsSome found) }
    ensures none { word.now ≡ codes "-" → IfOk result (λ found. IfSome found (λ bytes. bytes.items ≡ [])) }
    ensures value { word.now ≢ codes "-" → IfOk result (λ found. IfSome found (λ bytes. decode_of word.now ≡ Ok bytes.items)) }
    ensures found { (bytes : List ℕ) → decode_of word.now ≡ Ok bytes → IfOk result (λ found. IsSome found) }
{
    if word == "-" {
        return Ok(Some(Vec::new(alloc)));
    }
    bytes_of_hex(alloc, word)
}

/// The word for these bytes: `-` for none, and else hexadecimal.
pub fn word_of_bytes(alloc: Global, bytes: &[u8]) -> Result<String, NoMemory>
    ensures none { bytes.now ≡ [] → IfOk result (λ word. string_bytes word ≡ codes "-") }
    ensures some { bytes.now ≢ [] → IfOk result (λ word. string_bytes word ≡ encode_lower bytes.now) }
{
    if bytes.is_empty() {
        return Ok(String::from_str(alloc, "-")?);
    }
    Ok(hex::encode(alloc, bytes)?)
}
