// The words that tell lines apart.
ghost use Rattle.std.specs.Prelude.{◌≡◌};
ghost use Rattle.text_words.specs.Reads.{Reads};
ghost use Rattle.trace_text.specs.Names.{keyword_text, outcome_text};

/// The first word of a line that doesn't begin with a number or with a sector's bytes.
#[derive(Clone, Copy)]
pub enum Keyword {
    Card,
    Issue,
    Params,
    Address,
    Poll,
    Phase,
    Discard,
    Bus,
    Flash,
    Recover,
    Irq,
    Cut,
    On,
    Left,
    Turn,
    Off,
}

pub fn read_keyword(word: &[u8]) -> Option<Keyword>
    ensures { Reads result (λ keyword. word.now ≡ keyword_text keyword) }
{
    match word {
        b"card" => Some(Keyword::Card),
        b"issue" => Some(Keyword::Issue),
        b"params" => Some(Keyword::Params),
        b"address" => Some(Keyword::Address),
        b"poll" => Some(Keyword::Poll),
        b"phase" => Some(Keyword::Phase),
        b"discard" => Some(Keyword::Discard),
        b"bus" => Some(Keyword::Bus),
        b"flash" => Some(Keyword::Flash),
        b"recover" => Some(Keyword::Recover),
        b"irq" => Some(Keyword::Irq),
        b"cut" => Some(Keyword::Cut),
        b"on" => Some(Keyword::On),
        b"left" => Some(Keyword::Left),
        b"turn" => Some(Keyword::Turn),
        b"off" => Some(Keyword::Off),
        _ => None,
    }
}

/// What follows a request's number in its answer.
#[derive(Clone, Copy)]
pub enum Outcome {
    Done,
    Read,
    Status,
    Fault,
    Refused,
    Lost,
}

pub fn read_outcome(word: &[u8]) -> Option<Outcome>
    ensures { Reads result (λ outcome. word.now ≡ outcome_text outcome) }
{
    match word {
        b"ok" => Some(Outcome::Done),
        b"data" => Some(Outcome::Read),
        b"status" => Some(Outcome::Status),
        b"fault" => Some(Outcome::Fault),
        b"refused" => Some(Outcome::Refused),
        b"lost" => Some(Outcome::Lost),
        _ => None,
    }
}
