ghost use Rattle.std.specs.Prelude.{◌≡◌, ◌==◌, ◌<◌, ◌≤◌, ◌-◌, ◌^◌, ℕ, true, false, IfSome, IfNone};
ghost use Rattle.std.specs.Int.{bit_at};
ghost use Rattle.std.specs.Int.RustNames.{bit_and, bit_or};
ghost use Rattle.std.specs.Option.{option_map_or};
ghost use Rattle.drv_tags.specs.Tags.{is_used, AreUsedBelow};

use std::marker::Model;

/// The tags, numbered from 0, and which of them are used.
#[derive(Debug, Drop)]
pub struct Tags {
    depth: u8,
    used: u32,
}

impl Model for Tags {
    ghost use Rattle.drv_tags.specs.Tags.{IsTagSet, TagSet};

    ghost Value = { TagSet };

    ghost view = { λ t. record { depth = t.depth; used = t.used } };

    ghost invariant = { λ t. IsTagSet (record { depth = t.depth; used = t.used }) };
}

impl Tags {
    ghost use Rattle.drv_tags.specs.Tags.{is_used, lowest_free, none_used, with_tag, without_tag, AreUsedBelow, ChangesTag};

    /// The tags 0 to `depth` - 1, of which none is used.
    pub fn new(depth: u8) -> Tags
        requires { depth ≤ 31 }
        ensures { result ≡ none_used depth }
    {
        Tags { depth, used: 0 }
    }

    /// Takes the lowest tag that is not used. None where all are used.
    pub fn take(&mut self) -> Option<u8>
        ensures lowest { result ≡ lowest_free self.old }
        ensures below { IfSome result (λ tag. tag < self.old.depth) }
        ensures free { IfSome result (λ tag. is_used self.old tag ≡ false) }
        ensures all { IfNone result (AreUsedBelow self.old self.old.depth) }
        ensures after { self.new ≡ option_map_or (with_tag self.old) result self.old }
        ensures taken { IfSome result (λ tag. ChangesTag self.old self.new tag true) }
    {
        let tag = lowest_free(self.used, self.depth)?;
        self.used = with_bit(self.used, tag);
        Some(tag)
    }

    /// The lowest tag that is not used. None where all are used.
    pub fn peek(&self) -> Option<u8>
        ensures { result ≡ lowest_free self.now }
    {
        lowest_free(self.used, self.depth)
    }

    /// Gives a used tag back.
    pub fn give(&mut self, tag: u8)
        requires { is_used self.old tag ≡ true }
        ensures after { self.new ≡ without_tag self.old tag }
        ensures given { ChangesTag self.old self.new tag false }
    {
        self.used = without_bit(self.used, tag);
    }

    /// The word with the bit of each used tag.
    pub fn used(&self) -> u32
        ensures word { result ≡ self.now.used }
        ensures below { (tag : ℕ) → bit_at result tag ≡ 1 → tag < self.now.depth }
        ensures depth { self.now.depth ≤ 31 }
    {
        self.used
    }
}

// The lowest of the first tags whose bit is 0 in the word of the used ones.
fn lowest_free(used: u32, depth: u8) -> Option<u8>
    requires { depth ≤ 31 }
    ensures below { IfSome result (λ tag. tag < depth) }
    ensures free { IfSome result (λ tag. is_used (record { depth = depth; used = used }) tag ≡ false) }
    ensures lowest { IfSome result (λ tag. AreUsedBelow (record { depth = depth; used = used }) tag) }
    ensures all { IfNone result (AreUsedBelow (record { depth = depth; used = used }) depth) }
{
    for tag in 0..depth {
        if !is_set(used, tag) {
            return Some(tag);
        }
    }
    None
}

fn is_set(word: u32, tag: u8) -> bool
    requires { tag < 32 }
    ensures { result ≡ (bit_at word tag == 1) }
{
    word >> tag & 1 == 1
}

fn with_bit(word: u32, tag: u8) -> u32
    requires { tag < 32 }
    ensures { result ≡ bit_or word (2 ^ tag) }
{
    word | 1 << tag
}

fn without_bit(word: u32, tag: u8) -> u32
    requires { tag < 32 }
    ensures { result ≡ bit_and word (2 ^ 32 - 1 - 2 ^ tag) }
{
    word & !(1 << tag)
}
