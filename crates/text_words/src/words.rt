// Lines and their words.
ghost use Rattle.std.specs.Prelude.{◌≡◌, ◌≢◌, ◌++◌, ◌∷◌, [], All, MatchOption};
ghost use Rattle.text_words.specs.Words.{words_of};

use memchr::memchr;
use std::marker::Model;

/// What stands before and after the first `mark` of `bytes`, if it has one.
pub fn split_once(bytes: &[u8], mark: u8) -> Option<(&[u8], &[u8])>
    ensures { MatchOption result (All (λ b. b ≢ mark) bytes.now)
        (λ parts. (bytes.now ≡ parts.0.now ++ mark ∷ parts.1.now)
        × All (λ b. b ≢ mark) parts.0.now) }
{
    let end = memchr(mark, bytes)?;
    Some((&bytes[..end], &bytes[end + 1..]))
}

/// The words of a line that are not taken yet. Contracts see them as a list.
#[derive(Drop)]
pub struct Words<'a> {
    rest: Option<&'a [u8]>,
}

impl<'a> Model for Words<'a> {
    ghost use Rattle.std.specs.Prelude.{ℕ, List};
    ghost use Rattle.std.specs.Option.{option_copied};
    ghost use Rattle.text_words.specs.Words.{words_left};

    ghost Value = { List (List ℕ) };

    ghost view = { λ words. words_left (option_copied words.rest) };
}

impl<'a> Words<'a> {
    /// The words of a line without its line feed.
    pub fn of(line: &'a [u8]) -> Self
        ensures { result ≡ words_of line.now }
    {
        Words { rest: Some(line) }
    }

    /// Takes the next word.
    pub fn next(&mut self) -> Option<&'a [u8]>
        ensures { MatchOption result ((self.old ≡ []) × (self.new ≡ []))
            (λ word. self.old ≡ word.now ∷ self.new) }
    {
        let rest = self.rest?;
        match split_once(rest, b' ') {
            Some((word, after)) => {
                self.rest = Some(after);
                Some(word)
            }
            None => {
                self.rest = None;
                Some(rest)
            }
        }
    }

    /// Whether no word is left.
    pub fn end(&self) -> Option<()>
        ensures { MatchOption result (self.now ≢ []) (λ _. self.now ≡ []) }
    {
        match self.rest {
            Some(_) => None,
            None => Some(()),
        }
    }
}
