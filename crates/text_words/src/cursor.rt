//! The words of a text, taken one after the other.
ghost use Rattle.std.specs.Prelude.{◌≡◌, ◌==◌, ◌-◌, ◌^◌, ◌<◌, [], ◌∷◌, length, position, count_by, MatchOption, Err};
ghost use Rattle.text_words.specs.declared.words.Stop.TheVariants.{Misfit};
ghost use Rattle.text_words.specs.Words.{words_of, begins, after};

use crate::words::{Reason, Stop};
use std::marker::Model;

/// The words of a text that are left: what stands between its spaces. Seen as their list.
#[derive(Debug, Drop)]
pub struct Words<'t> {
    text: &'t [u8],
    done: bool,
}

impl<'t> Model for Words<'t> {
    ghost use Rattle.std.specs.Prelude.{List, ℕ};
    ghost use Rattle.text_words.specs.Words.{words_unless};

    ghost Value = { List (List ℕ) };

    ghost view = { λ w. words_unless w.done w.text.now };
}

/// The place of the first space.
fn space_in(text: &[u8]) -> Option<usize>
    ensures { result ≡ position (λ b. b == 32) text.now }
{
    text.iter().position(|byte| *byte == b' ')
}

/// How many spaces there are.
fn spaces_in(text: &[u8]) -> usize
    ensures { result ≡ count_by (λ b. b == 32) text.now }
{
    text.iter().filter(|byte| **byte == b' ').count()
}

impl<'t> Words<'t> {
    /// The words of a text.
    pub fn of(text: &'t [u8]) -> Words<'t>
        ensures { result ≡ words_of text.now }
    {
        Words { text, done: false }
    }

    /// The same words, to be taken anew.
    pub fn copy(&self) -> Words<'t>
        ensures { result ≡ self.now }
    {
        Words {
            text: self.text,
            done: self.done,
        }
    }

    /// Whether no word is left.
    pub fn is_empty(&self) -> bool
        ensures { result ≡ (length self.now == 0) }
    {
        self.done
    }

    /// How many words are left. This walks through the text that is left.
    pub fn left(&self) -> usize
        ensures left { result ≡ length self.now }
        ensures few { result < 2 ^ 64 - 1 }
    {
        if self.done {
            0
        } else {
            spaces_in(self.text) + 1
        }
    }

    /// Takes the next word.
    pub fn take(&mut self) -> Option<&'t [u8]>
        ensures { MatchOption result ((self.old ≡ []) × (self.new ≡ [])) (λ word. self.old ≡ word.now ∷ self.new) }
    {
        if self.done {
            return None;
        }
        let text = self.text;
        match space_in(text) {
            Some(place) => {
                self.text = &text[place + 1..];
                Some(&text[..place])
            }
            None => {
                self.done = true;
                Some(text)
            }
        }
    }

    /// All the words that are left, as they stand.
    pub fn rest(&self) -> Option<&'t [u8]>
        ensures { MatchOption result (self.now ≡ []) (λ text. self.now ≡ words_of text.now) }
    {
        if self.done { None } else { Some(self.text) }
    }

    /// The next word.
    pub fn next(&self) -> Option<&'t [u8]>
        ensures { MatchOption result (self.now ≡ []) (λ word. self.now ≡ word.now ∷ after self.now) }
    {
        if self.done {
            return None;
        }
        match space_in(self.text) {
            Some(place) => Some(&self.text[..place]),
            None => Some(self.text),
        }
    }

    /// Leaves the next word out, if there is one.
    pub fn skip(&mut self)
        ensures { self.new ≡ after self.old }
    {
        let _word = self.take();
    }

    /// Whether the next word is this one.
    pub fn begins(&self, word: &[u8]) -> bool
        ensures { result ≡ begins word.now self.now }
    {
        match self.next() {
            Some(next) => next == word,
            None => false,
        }
    }

    /// The first of these words does not fit, or is missing.
    pub fn misfit<T>(&self, reason: Reason) -> Result<T, Stop>
        ensures { result ≡ Err (Misfit (length self.now) reason) }
    {
        Err(Stop::Misfit {
            left: self.left(),
            reason,
        })
    }
}
