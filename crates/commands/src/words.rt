// A line of bytes, word after word.
ghost use Rattle.std.specs.Prelude.{◌≡◌, ◌<◌, ◌≤◌, [], length, MatchOption, ◌≢◌};
ghost use Rattle.std.specs.Iterator.{at_most};
ghost use Rattle.commands.specs.Words.{gap, before, first_word, after_word};

// What is left of a line. Words are parted by spaces; every other byte belongs to a word.
#[derive(Drop)]
pub struct Words<'a> {
    pub(crate) rest: &'a [u8],
}

// How many spaces the bytes begin with.
fn spaces(bytes: &[u8]) -> usize
    ensures within { result ≤ length bytes.now }
    ensures value { result ≡ gap bytes.now }
{
    bytes.iter().take_while(|b| **b == b' ').count()
}

// How many bytes stand before the first that is `end`.
// Apart from `spaces`, at a line each: for both at once the test would be a parameter, with clauses on what it answers.
pub fn bytes_before(bytes: &[u8], end: u8) -> usize
    ensures within { result ≤ length bytes.now }
    ensures value { result ≡ before end bytes.now }
{
    bytes.iter().take_while(|b| **b != end).count()
}

impl<'a> Words<'a> {
    pub fn of(line: &'a [u8]) -> Words<'a>
        ensures { result.rest.now ≡ line.now }
    {
        Words { rest: line }
    }

    // Answers only where no word is left.
    pub fn end(&mut self) -> Option<()>
        ensures { MatchOption result (first_word self.old.rest.now ≢ []) (λ _. first_word self.old.rest.now ≡ []) }
    {
        self.next().is_none().then_some(())
    }
}

impl<'a> Iterator for Words<'a> {
    type Item = &'a [u8];

    ghost next_gives = { λ s word t. MatchOption word (first_word s.rest.now ≡ []) (λ w. (w.now ≡ first_word s.rest.now) × (0 < length w.now)) × (t.rest.now ≡ after_word s.rest.now) };

    ghost remaining = { λ s. at_most (length s.rest.now) };

    fn next(&mut self) -> Option<&'a [u8]> {
        let line = self.rest;
        let (_, bytes) = line.split_at(spaces(line));
        let (word, rest) = bytes.split_at(bytes_before(bytes, b' '));
        self.rest = rest;
        (!word.is_empty()).then_some(word)
    }
}
