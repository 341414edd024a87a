ghost use Rattle.std.specs.Prelude.{◌≡◌, ◌+◌, ◌≤◌, ◌<◌, ◌^◌};
ghost use Rattle.cq_words.specs.Fields.{field_of, with_field};

/// The field of `width` bits from bit `low` up, as `FIELD_GET` of the Linux kernel.
pub fn bits(word: u64, low: u8, width: u8) -> u64
    requires some { 1 ≤ width }
    requires narrow { width ≤ 32 }
    requires within { low + width ≤ 64 }
    ensures value { result ≡ field_of word low width }
    ensures fits { result < 2 ^ width }
{
    (word >> low) & ((1 << width) - 1)
}

/// The word with `value` in the field of `width` bits from bit `low` up, and every other bit as it was, as
/// `FIELD_PREP` of the Linux kernel with the field cleared before.
pub fn with_bits(word: u64, low: u8, width: u8, value: u64) -> u64
    requires some { 1 ≤ width }
    requires narrow { width ≤ 32 }
    requires within { low + width ≤ 64 }
    requires fits { value < 2 ^ width }
    ensures { result ≡ with_field word low width value }
{
    let mask = ((1 << width) - 1) << low;
    (word & !mask) | (value << low)
}
