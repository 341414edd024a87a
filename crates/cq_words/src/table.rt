ghost use Rattle.std.specs.Prelude.{◌≡◌, ◌<◌, ◌^◌, IsTrue, if◌then◌else◌};

use crate::{bits, with_bits};

/// Where a field stands in a word: `width` bits from bit `low` up.
#[derive(Clone, Copy, Debug, PartialEq, Eq)]
pub struct BitField {
    pub low: u8,
    pub width: u8,
}

/// A field and the number to stand in it.
#[derive(Clone, Copy, Debug, PartialEq, Eq)]
pub struct FieldValue {
    pub field: BitField,
    pub value: u64,
}

impl BitField {
    ghost use Rattle.cq_words.specs.Table.{is_in_word, is_set, number_in};

    /// The number that stands in the field.
    pub fn get(self, word: u64) -> u64
        requires { IsTrue (is_in_word self) }
        ensures value { result ≡ number_in word self }
        ensures fits { result < 2 ^ self.width }
    {
        bits(word, self.low, self.width)
    }

    /// Whether the number in the field is 1.
    pub fn is_set(self, word: u64) -> bool
        requires { IsTrue (is_in_word self) }
        ensures { result ≡ is_set word self }
    {
        self.get(word) == 1
    }

    /// The field with `value` to stand in it.
    pub fn of(self, value: u64) -> FieldValue
        ensures { result ≡ record { field = self; value = value } }
    {
        FieldValue { field: self, value }
    }

    /// The field with 1 or 0 to stand in it, for true or false.
    pub fn flag(self, set: bool) -> FieldValue
        ensures { result ≡ record { field = self; value = (if set then 1 else 0) } }
    {
        self.of(u64::from(set))
    }
}

impl FieldValue {
    ghost use Rattle.cq_words.specs.Table.{Fits, Holds, cut_value, is_in_word, is_table, word_with};
    ghost use Rattle.cq_words.specs.Fields.{with_field};

    /// The word with the value in its field, cut to the field's width. The other bits stay.
    pub fn put(&self, word: u64) -> u64
        requires { IsTrue (is_in_word self.now.field) }
        ensures { result ≡ with_field word self.now.field.low self.now.field.width (cut_value self.now) }
    {
        let mask = (1 << self.field.width) - 1;
        with_bits(word, self.field.low, self.field.width, self.value & mask)
    }

    /// The word that has these fields and no other bit. A value that is too wide for its field is cut to its low bits.
    /// The condition is that the fields lie in a word, apart from one another.
    pub fn word_of(table: &[FieldValue]) -> u64
        requires { IsTrue (is_table table.now) }
        ensures value { result ≡ word_with table.now }
        ensures holds { Fits table.now → Holds result table.now }
    {
        let mut word = 0;
        for entry in table {
            word = entry.put(word);
        }
        word
    }
}
