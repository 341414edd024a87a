// What is printed at once: a line or none, and the line of the script's end where it ends.
use raw_lines::RawLine;
use storage_model::End;

/// What an access or an event of the engine prints.
#[derive(Drop)]
pub struct Reply {
    pub line: Option<RawLine>,
    pub end: Option<End>,
}

impl Reply {
    ghost use Rattle.std.specs.Prelude.{◌≡◌};
    ghost use Rattle.raw_face.specs.Output.{ending, nothing, one};
    ghost use Rattle.raw_face.specs.Reply.{output_of};

    /// Nothing.
    pub fn none() -> Reply
        ensures { output_of result ≡ nothing }
    {
        Reply {
            line: None,
            end: None,
        }
    }

    /// A line.
    pub fn of(line: RawLine) -> Reply
        ensures { output_of result ≡ one line }
    {
        Reply {
            line: Some(line),
            end: None,
        }
    }

    /// The end of the script.
    pub fn ending(end: End) -> Reply
        ensures { output_of result ≡ ending end }
    {
        Reply {
            line: None,
            end: Some(end),
        }
    }
}
