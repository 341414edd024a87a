// Numbers and bytes as lower case hexadecimal digits.
ghost use Rattle.std.specs.Prelude.{◌≡◌, ◌^◌, ◌<◌, ◌*◌, ℕ, List, length, IsTrue, false};
ghost use Rattle.hex.specs.Hex.{IsBytes, encode_lower};
ghost use Rattle.text_words.specs.Reads.{Reads};
ghost use Rattle.text_words.specs.Words.{hex_word};

/// A number of 32 bits as eight digits, the highest first.
pub fn read_hex_word(word: &[u8]) -> Option<u32>
    ensures { Reads result (λ n. (n < 2 ^ 32) × (word.now ≡ hex_word n)) }
{
    let mut bytes = [0; 4];
    if !decodes(word, &mut bytes, &mut [0; 8]) {
        return None;
    }
    Some(u32::from_be_bytes(bytes))
}

/// 512 bytes as 1,024 digits, two for each byte.
pub fn read_hex_bytes(word: &[u8]) -> Option<[u8; 512]>
    ensures { Reads result (λ bytes. IsBytes bytes × (length bytes ≡ 512) × (word.now ≡ encode_lower bytes)) }
{
    let mut bytes = [0; 512];
    if !decodes(word, &mut bytes, &mut [0; 1024]) {
        return None;
    }
    Some(bytes)
}

// Whether `word` is the text of as many bytes as `out` holds, which are then in `out`. It writes the digits again, since
// decoding takes upper case too.
fn decodes(word: &[u8], out: &mut [u8], digits: &mut [u8]) -> bool
    requires { length digits.old ≡ 2 * length out.old }
    ensures text { IsTrue result → word.now ≡ encode_lower out.new }
    ensures bytes { IsTrue result → IsBytes out.new }
    ensures none { result ≡ false → (bytes : List ℕ) → IsBytes bytes → length bytes ≡ length out.old → word.now ≡ encode_lower bytes → ⊥ }
{
    if hex::decode_to_slice(word, out).is_err() {
        return false;
    }
    hex::encode_to_slice(&*out, digits).unwrap();
    *digits == *word
}
