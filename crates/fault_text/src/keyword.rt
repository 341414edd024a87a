// The words that tell lines apart.
ghost use Rattle.std.specs.Prelude.{◌≡◌};
ghost use Rattle.text_words.specs.Reads.{Reads};
ghost use Rattle.fault_text.specs.Lines.{keyword_text};

/// The first word of a line.
#[derive(Clone, Copy)]
pub enum Keyword {
    Ready,
    Bus,
    Program,
    Fetch,
    Cut,
    Turn,
}

pub fn read_keyword(word: &[u8]) -> Option<Keyword>
    ensures { Reads result (λ keyword. word.now ≡ keyword_text keyword) }
{
    match word {
        b"ready" => Some(Keyword::Ready),
        b"bus" => Some(Keyword::Bus),
        b"program" => Some(Keyword::Program),
        b"fetch" => Some(Keyword::Fetch),
        b"cut" => Some(Keyword::Cut),
        b"turn" => Some(Keyword::Turn),
        _ => None,
    }
}
