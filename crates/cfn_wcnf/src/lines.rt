//! The words of a text's lines that are no comments, one after the other.

ghost use Rattle.std.specs.Prelude.{◌≡◌, ◌+◌, ◌<◌, ◌≤◌, ◌∷◌, ◌++◌, [], ◌==◌, length, position, IfSome, IfNone};
ghost use Rattle.cfn_words.specs.Splitting.{left};
ghost use Rattle.cfn_wcnf.specs.Lines.{line_words, text_words};
ghost use Rattle.cfn_wcnf.specs.Places.{words_left, bytes_left, line_left};

use cfn_words::Words;

/// The line that is gone over, and the bytes behind it.
#[derive(Drop)]
pub(crate) struct Lines<'a> {
    line: Words<'a>,
    rest: &'a [u8],
}

impl<'a> Lines<'a> {
    /// The lines of a text.
    pub(crate) fn new(text: &'a [u8]) -> Lines<'a>
        ensures words { words_left result ≡ text_words text.now }
        ensures bytes { bytes_left result ≡ length text.now }
    {
        Lines {
            line: Words::new(&text[..0]),
            rest: text,
        }
    }

    /// Takes the next word: `None` where no word is left.
    pub(crate) fn word(&mut self) -> Option<&'a [u8]>
        ensures first { IfSome result (λ w. words_left self.old ≡ w.now ∷ words_left self.new) }
        ensures none { IfNone result (words_left self.old ≡ []) }
        ensures fewer { IfSome result (λ w. bytes_left self.new < bytes_left self.old) }
        ensures bytes { bytes_left self.new ≤ bytes_left self.old }
    {
        loop {
            if let Some(word) = self.line.next() {
                return Some(&self.line.text()[word.start..word.end]);
            }
            if self.rest.is_empty() {
                return None;
            }
            self.next_line();
        }
    }

    /// Goes on to the next line.
    fn next_line(&mut self)
        requires { 0 < length self.old.rest.now }
        ensures words { words_left self.new ≡ text_words self.old.rest.now }
        ensures bytes { bytes_left self.new ≤ length self.old.rest.now }
        ensures fewer { length self.new.rest.now < length self.old.rest.now }
    {
        let (line, rest) = split_line(self.rest);
        self.line = words_of_line(line);
        self.rest = rest;
    }
}

/// The first line of a text, and the bytes behind its LF.
fn split_line(text: &[u8]) -> (&[u8], &[u8])
    requires { 0 < length text.now }
    ensures words { text_words text.now ≡ line_words result.0.now ++ text_words result.1.now }
    ensures bytes { length result.0.now + length result.1.now ≤ length text.now }
    ensures fewer { length result.1.now < length text.now }
{
    match line_end(text) {
        Some(end) => (&text[..end], &text[end + 1..]),
        None => (text, &text[text.len()..]),
    }
}

/// How many bytes stand before the first LF, if there is an LF.
fn line_end(text: &[u8]) -> Option<usize>
    ensures { result ≡ position (λ b. b == 10) text.now }
{
    text.iter().position(|byte| *byte == b'\n')
}

/// The words of a line, of which there are none where it is a comment.
fn words_of_line(line: &[u8]) -> Words<'_>
    ensures words { left result ≡ line_words line.now }
    ensures bytes { line_left result ≤ length line.now }
{
    match line {
        [b'c', ..] => Words::new(&line[..0]),
        _ => Words::new(line),
    }
}
