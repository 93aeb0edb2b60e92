//! A line: its first word, and all others as numbers.
ghost use Rattle.std.specs.Prelude.{◌≡◌, ◌==◌, ◌<◌, ◌≤◌, ◌∷◌, [], None, Some, if◌then◌else◌, length, position, IfOk, IfSome, MatchOption};
ghost use Rattle.quorum_config.specs.Walks.{some_if};
ghost use Rattle.std.specs.Option.{option_map};
ghost use Rattle.std.specs.Char.{is_ascii_digit};
ghost use Rattle.std.specs.List.{list_all};
ghost use Rattle.std.specs.Str.Parse.{digits_value};
ghost use Rattle.text_words.specs.PayloadWords.{number_in};
ghost use Rattle.text_words.specs.Words.{words_of};
ghost use Rattle.quorum_config.specs.Readings.{each_number, line_parts};

use tcs_terms::OutOfMemory;
use text_words::read_number;

/// Each number of so many decimal digits fits 64 bits.
const MAX_DIGITS: usize = 19;

/// The place of the first space.
fn space_in(text: &[u8]) -> Option<usize>
    ensures { result ≡ position (λ b. b == 32) text.now }
{
    text.iter().position(|byte| *byte == b' ')
}

/// The first word of a text that has at least two, and what follows its space.
fn cut(text: &[u8]) -> Option<(&[u8], &[u8])>
    ensures words { MatchOption result (words_of text.now ≡ text.now ∷ []) (λ halves. words_of text.now ≡ halves.0.now ∷ words_of halves.1.now) }
    ensures fewer { IfSome result (λ halves. length halves.1.now < length text.now) }
{
    match space_in(text) {
        None => None,
        Some(place) => Some((&text[..place], &text[place + 1..])),
    }
}

/// The value of at most so many digits.
fn value_of(word: &[u8]) -> Option<u64>
    requires { length word.now ≤ MAX_DIGITS }
    ensures { result ≡ (if list_all is_ascii_digit word.now then Some (digits_value 10 word.now) else None) }
{
    let mut value = 0u64;
    'digits: for byte in word {
        if !byte.is_ascii_digit() {
            return None;
        }
        value = value * 10 + u64::from(*byte - b'0');
    }
    Some(value)
}

/// The number that a word writes, as `read_number` tells it. The numbers of an input are short, and are read in one pass.
fn number_of(word: &[u8]) -> Option<u64>
    ensures { result ≡ number_in word.now }
{
    if word.is_empty() || word.len() > MAX_DIGITS || (word[0] == b'0' && word.len() != 1) {
        return read_number(word);
    }
    value_of(word)
}

/// All words of a text as numbers, in place of what the buffer held; or that they are not numbers.
fn numbers_in(numbers: &mut Vec<u64>, text: &[u8]) -> Result<bool, OutOfMemory>
    ensures { IfOk result (λ all. each_number (words_of text.now) ≡ some_if all numbers.new.items) }
{
    numbers.clear();
    let mut left = text;
    'words: loop {
        match cut(left) {
            Some((word, more)) => {
                let Some(number) = number_of(word) else {
                    return Ok(false);
                };
                numbers.push(number)?;
                left = more;
            }
            None => {
                let Some(number) = number_of(left) else {
                    return Ok(false);
                };
                numbers.push(number)?;
                return Ok(true);
            }
        }
    }
}

/// The first word of a line. The numbers after it take the place of what the buffer held.
#[tactic(auto, unfolding(crate::specs::Readings::line_parts))]
pub(crate) fn parts_of<'t>(
    numbers: &mut Vec<u64>,
    line: &'t [u8],
) -> Result<Option<&'t [u8]>, OutOfMemory>
    ensures { IfOk result (λ verb. option_map (λ v. (v.now, numbers.new.items)) verb ≡ line_parts line.now) }
{
    match cut(line) {
        None => {
            numbers.clear();
            Ok(Some(line))
        }
        Some((verb, rest)) => {
            if numbers_in(numbers, rest)? {
                Ok(Some(verb))
            } else {
                Ok(None)
            }
        }
    }
}
