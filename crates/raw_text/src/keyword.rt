// The words that tell lines apart.
ghost use Rattle.std.specs.Prelude.{◌≡◌};
ghost use Rattle.text_words.specs.Reads.{Reads};
ghost use Rattle.raw_text.specs.Names.{keyword_text};

/// The first word of a line.
#[derive(Clone, Copy)]
pub enum Keyword {
    Poke,
    Fill,
    Peek,
    Write,
    Read,
    Go,
    Show,
    Discard,
}

pub fn read_keyword(word: &[u8]) -> Option<Keyword>
    ensures { Reads result (λ keyword. word.now ≡ keyword_text keyword) }
{
    match word {
        b"poke" => Some(Keyword::Poke),
        b"fill" => Some(Keyword::Fill),
        b"peek" => Some(Keyword::Peek),
        b"w" => Some(Keyword::Write),
        b"r" => Some(Keyword::Read),
        b"go" => Some(Keyword::Go),
        b"show" => Some(Keyword::Show),
        b"discard" => Some(Keyword::Discard),
        _ => None,
    }
}
