//! The words of a line, one after the other.
//! They are cut at each space, so that a space too many shows as an empty word.
ghost use Rattle.std.specs.Prelude.{◌≡◌};
ghost use Rattle.lb_script.specs.Words.{words_of};

use std::marker::Model;

/// The words of a line that are not yet taken, each without the spaces around it.
///
/// Between two spaces in a row, before a space at the front and after one at the end is an empty word.
#[derive(Drop)]
pub struct Words<'a> {
    rest: Option<&'a str>,
}

impl<'a> Model for Words<'a> {
    ghost use Rattle.std.specs.Prelude.{ℕ, List};

    ghost Value = { List (List ℕ) };

    ghost use Rattle.lb_script.specs.Words.{words_left};

    ghost view = { λ w. words_left w.rest };
}

impl<'a> Words<'a> {
    /// Returns all words of the line.
    pub fn of(line: &'a str) -> Words<'a>
        ensures { result ≡ words_of line.now }
    {
        Words { rest: Some(line) }
    }
}

impl<'a> Iterator for Words<'a> {
    type Item = &'a str;

    ghost use Rattle.std.specs.Iterator.{YieldsFirstRef, item_count};

    ghost next_gives = { YieldsFirstRef (λ s. s) };

    ghost remaining = { item_count (λ s. s) };

    // Words are short: a search byte by byte is faster than one for long texts.
    #[inline]
    fn next(&mut self) -> Option<&'a str> {
        let line = self.rest?;
        match line.as_bytes().iter().position(|&byte| byte == b' ') {
            Some(place) => {
                let (word, _) = line.split_at(place);
                let (_, rest) = line.split_at(place + 1);
                self.rest = Some(rest);
                Some(word)
            }
            None => {
                self.rest = None;
                Some(line)
            }
        }
    }
}
