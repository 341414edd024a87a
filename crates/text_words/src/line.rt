// A line that is written word by word, in a buffer on the stack.
ghost use Rattle.std.specs.Prelude.{◌≡◌, ◌+◌, ◌*◌, ◌≤◌, ◌++◌, ◌∷◌, [], length, codes, decimal};
ghost use Rattle.hex.specs.Hex.{encode_lower};
ghost use Rattle.arrayvec.specs.ArrayVec.{array_vec_len};
ghost use Rattle.text_words.specs.Words.{bytes_words, hex_byte, hex_word, is_one_byte, spaced, word};

use arrayvec::ArrayVec;
use itoa::Buffer;

/// Room for the longest line: some words, 1,024 digits and a line feed.
pub const ROOM: usize = 1280;

/// The text so far.
#[derive(Drop)]
pub struct Line {
    pub text: ArrayVec<u8, ROOM>,
}

impl Line {
    /// An empty line.
    pub fn new() -> Self
        ensures { result.text.items ≡ [] }
    {
        Line {
            text: ArrayVec::new(),
        }
    }

    /// The text so far.
    pub fn as_slice(&self) -> &[u8]
        ensures { result.now ≡ self.now.text.items }
    {
        self.text.as_slice()
    }

    /// Begins anew with a word.
    pub fn begin(&mut self, first: &[u8])
        requires { length first.now ≤ 40 }
        ensures text { self.new.text.items ≡ first.now }
        ensures len { array_vec_len self.new.text ≤ 40 }
    {
        self.text.clear();
        self.text.try_extend_from_slice(first).unwrap();
    }

    /// Begins anew with a number.
    pub fn begin_number(&mut self, number: u32)
        ensures text { self.new.text.items ≡ decimal number }
        ensures len { array_vec_len self.new.text ≤ 40 }
    {
        let mut buffer = Buffer::new();
        self.begin(buffer.format(number).as_bytes());
    }

    /// One word more.
    pub fn word(&mut self, text: &[u8])
        requires short { length text.now ≤ 40 }
        requires room { array_vec_len self.old.text ≤ 240 }
        ensures text { self.new.text.items ≡ self.old.text.items ++ word text.now }
        ensures len { array_vec_len self.new.text ≤ array_vec_len self.old.text + 41 }
    {
        self.text.push(b' ');
        self.text.try_extend_from_slice(text).unwrap();
    }

    /// A decimal number.
    pub fn number(&mut self, number: u32)
        requires { array_vec_len self.old.text ≤ 240 }
        ensures text { self.new.text.items ≡ self.old.text.items ++ word (decimal number) }
        ensures len { array_vec_len self.new.text ≤ array_vec_len self.old.text + 41 }
    {
        let mut buffer = Buffer::new();
        self.word(buffer.format(number).as_bytes());
    }

    /// A number in eight digits.
    pub fn hex_word(&mut self, number: u32)
        requires { array_vec_len self.old.text ≤ 240 }
        ensures text { self.new.text.items ≡ self.old.text.items ++ word (hex_word number) }
        ensures len { array_vec_len self.new.text ≤ array_vec_len self.old.text + 41 }
    {
        let mut digits = [0; 8];
        hex::encode_to_slice(number.to_be_bytes(), &mut digits).unwrap();
        self.word(&digits);
    }

    /// A byte in two digits.
    pub fn hex_byte(&mut self, byte: u8)
        requires { array_vec_len self.old.text ≤ 240 }
        ensures text { self.new.text.items ≡ self.old.text.items ++ word (hex_byte byte) }
        ensures len { array_vec_len self.new.text ≤ array_vec_len self.old.text + 41 }
    {
        let mut digits = [0; 2];
        hex::encode_to_slice([byte], &mut digits).unwrap();
        self.word(&digits);
    }

    /// Two digits for each of at most 512 bytes.
    pub fn bytes(&mut self, bytes: &[u8])
        requires few { length bytes.now ≤ 512 }
        requires room { array_vec_len self.old.text ≤ 200 }
        ensures text { self.new.text.items ≡ self.old.text.items ++ word (encode_lower bytes.now) }
        ensures len { array_vec_len self.new.text ≤ array_vec_len self.old.text + 1025 }
    {
        self.text.push(b' ');
        self.digits(bytes, &mut [0; 1024]);
    }

    /// A sector's bytes: `fill` and the byte where all are equal, else all digits.
    pub fn data(&mut self, value: &[u8; 512])
        requires { array_vec_len self.old.text ≤ 150 }
        ensures text { self.new.text.items ≡ self.old.text.items ++ word (spaced (bytes_words value.now)) }
        ensures len { array_vec_len self.new.text ≤ array_vec_len self.old.text + 1025 }
    {
        if one_byte(value) {
            self.word(b"fill");
            self.hex_byte(value[0]);
        } else {
            self.bytes(value);
        }
    }

    /// Begins anew with a sector's bytes.
    #[tactic(auto, unfolding(crate::specs::Words::bytes_words))]
    pub fn begin_data(&mut self, value: &[u8; 512])
        ensures text { self.new.text.items ≡ spaced (bytes_words value.now) }
        ensures len { array_vec_len self.new.text ≤ 1270 }
    {
        if one_byte(value) {
            self.begin(b"fill");
            self.hex_byte(value[0]);
        } else {
            self.text.clear();
            self.digits(value, &mut [0; 1024]);
        }
    }

    /// The line feed.
    pub fn end(&mut self)
        requires { array_vec_len self.old.text ≤ 1270 }
        ensures { self.new.text.items ≡ self.old.text.items ++ 10 ∷ [] }
    {
        self.text.push(b'\n');
    }

    // `room` is for the digits of the bytes.
    fn digits(&mut self, bytes: &[u8], room: &mut [u8])
        requires few { 2 * length bytes.now ≤ length room.old }
        requires small { length room.old ≤ 1024 }
        requires room { array_vec_len self.old.text ≤ 250 }
        ensures text { self.new.text.items ≡ self.old.text.items ++ encode_lower bytes.now }
        ensures len { array_vec_len self.new.text ≡ array_vec_len self.old.text + 2 * length bytes.now }
    {
        let digits = &mut room[..2 * bytes.len()];
        hex::encode_to_slice(bytes, &mut *digits).unwrap();
        self.text.try_extend_from_slice(&*digits).unwrap();
    }
}

/// Whether all bytes of a sector are equal.
pub fn one_byte(value: &[u8; 512]) -> bool
    ensures { result ≡ is_one_byte value.now }
{
    value.iter().all(|byte| *byte == value[0])
}
