// The line of a setting.
ghost use Rattle.std.specs.Prelude.{◌≡◌, ◌≤◌, ◌∷◌, [], codes, decimal};
ghost use Rattle.text_words.specs.Reads.{Reads};
ghost use Rattle.text_words.specs.Words.{spaced};
ghost use Rattle.request_text.specs.Settings.{IsCache, IsSetting, kind_of, kind_text, lines_text, setting_words, value_text, width_text};

use text_words::{Words, read_decimal_in};

const MAX_DEPTH: u16 = 31;

const MAX_LINES: u16 = 1024;

const MAX_COALESCE: u16 = 31;

/// What a line before the requests sets.
#[derive(Clone, Copy, Debug, PartialEq, Eq)]
pub enum Setting {
    /// The depth of the command queue, 1 to 31 (JESD84-B51, CMDQ_DEPTH).
    Depth(u8),
    /// The lines of the cache, 1 to 1,024, or `None` where the cache is off (JESD84-B51, CACHE_CTRL).
    Cache(Option<u16>),
    /// Whether task and transfer descriptors are of 128 bits, in place of 64 (cqhci.h, CQHCI_TASK_DESC_SZ).
    Descriptors(bool),
    /// How many completions are coalesced into one interrupt, 0 to 31; 0 is no coalescing (cqhci.h, CQHCI_IC_ICCTH).
    Coalesce(u8),
}

/// What settings differ in: a text has each kind at most once.
#[derive(Clone, Copy, Debug, PartialEq, Eq)]
pub enum Kind {
    Depth,
    Cache,
    Descriptors,
    Coalesce,
}

impl Setting {
    pub fn kind(self) -> Kind
        ensures { result ≡ kind_of self }
    {
        match self {
            Setting::Depth(_) => Kind::Depth,
            Setting::Cache(_) => Kind::Cache,
            Setting::Descriptors(_) => Kind::Descriptors,
            Setting::Coalesce(_) => Kind::Coalesce,
        }
    }
}

// The setting of a line, given without its line feed.
pub fn read_setting(line: &[u8]) -> Option<Setting>
    ensures { Reads result (λ setting. IsSetting setting × (line.now ≡ spaced (setting_words setting))) }
{
    let mut words = Words::of(line);
    let first = words.next()?;
    setting_of(first, words)
}

fn setting_of(first: &[u8], words: Words) -> Option<Setting>
    ensures { Reads result (λ setting. IsSetting setting × (first.now ∷ words.entry ≡ setting_words setting)) }
{
    match first {
        b"set" => named(words),
        _ => None,
    }
}

// A kind and its value, what follows `set`.
fn named(mut words: Words) -> Option<Setting>
    ensures { Reads result (λ setting. IsSetting setting × (words.entry ≡ kind_text (kind_of setting) ∷ value_text setting ∷ [])) }
{
    let kind = read_kind(words.next()?)?;
    let value = words.next()?;
    words.end()?;
    of_kind(kind, value)
}

fn read_kind(word: &[u8]) -> Option<Kind>
    ensures { Reads result (λ kind. word.now ≡ kind_text kind) }
{
    match word {
        b"depth" => Some(Kind::Depth),
        b"cache" => Some(Kind::Cache),
        b"desc" => Some(Kind::Descriptors),
        b"coalesce" => Some(Kind::Coalesce),
        _ => None,
    }
}

fn of_kind(kind: Kind, value: &[u8]) -> Option<Setting>
    ensures { Reads result (λ setting. IsSetting setting × (kind_of setting ≡ kind) × (value.now ≡ value_text setting)) }
{
    match kind {
        Kind::Depth => Some(Setting::Depth(number(value, 1, MAX_DEPTH)?)),
        Kind::Cache => Some(Setting::Cache(lines(value)?)),
        Kind::Descriptors => Some(Setting::Descriptors(is_wide(value)?)),
        Kind::Coalesce => Some(Setting::Coalesce(number(value, 0, MAX_COALESCE)?)),
    }
}

fn number(value: &[u8], low: u16, high: u16) -> Option<u8>
    requires { high ≤ 255 }
    ensures { Reads result (λ n. (low ≤ n) × (n ≤ high) × (value.now ≡ decimal n)) }
{
    let number = read_decimal_in(value, low, high)?;
    Some(number as u8)
}

fn lines(value: &[u8]) -> Option<Option<u16>>
    ensures { Reads result (λ lines. IsCache lines × (value.now ≡ lines_text lines)) }
{
    match value {
        b"off" => Some(None),
        _ => Some(Some(read_decimal_in(value, 1, MAX_LINES)?)),
    }
}

fn is_wide(value: &[u8]) -> Option<bool>
    ensures { Reads result (λ wide. value.now ≡ width_text wide) }
{
    match value {
        b"64" => Some(false),
        b"128" => Some(true),
        _ => None,
    }
}
