//! The words of a line.
ghost use Rattle.std.specs.Prelude.{◌≡◌, ◌≤◌, ◌==◌, [], ◌∷◌, MatchOption, length};
ghost use Rattle.std.specs.List.{prefix_len};
ghost use Rattle.tab_lines.specs.Words.{words_of, words_left};

use tab_io::length_before;

/// The words of a line that are left, as a place in it. No word is copied.
#[derive(Clone, Copy)]
pub struct Words<'a> {
    rest: &'a [u8],
}

impl<'a> Words<'a> {
    /// The words of the line.
    pub fn of(line: &'a [u8]) -> Words<'a>
        ensures { words_left result ≡ words_of line.now }
    {
        Words { rest: line }
    }

    /// Takes the next word.
    #[tactic(auto, using(crate::proofs::Cutting::words_cut, crate::proofs::Cutting::no_words))]
    pub fn next(&mut self) -> Option<&'a [u8]>
        ensures { MatchOption result ((words_left self.old ≡ []) × (words_left self.new ≡ [])) (λ word. words_left self.old ≡ word.now ∷ words_left self.new) }
    {
        let text = skip_spaces(self.rest);
        if text.is_empty() {
            self.rest = text;
            return None;
        }
        let end = length_before(b' ', text);
        let (word, rest) = text.split_at(end);
        self.rest = rest;
        Some(word)
    }
}

// The text behind the spaces in front.
#[tactic(auto, using(crate::proofs::Cutting::words_skip, crate::proofs::Cutting::skipped))]
fn skip_spaces(text: &[u8]) -> &[u8]
    ensures words { words_of result.now ≡ words_of text.now }
    ensures front { prefix_len (λ b. b == 32) result.now ≡ 0 }
{
    let count = spaces(text);
    text.split_at(count).1
}

// How many spaces stand in front.
#[tactic(auto, using(crate::proofs::Cutting::prefix_fits))]
fn spaces(text: &[u8]) -> usize
    ensures value { result ≡ prefix_len (λ b. b == 32) text.now }
    ensures fits { result ≤ length text.now }
{
    text.iter().take_while(|b| **b == b' ').count()
}
