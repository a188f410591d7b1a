//! Lines of words.

ghost use Rattle.std.specs.Prelude.{◌≡◌, ◌≤◌, [], ◌∷◌, ◌++◌, decimal, map};
ghost use Rattle.cfn_model.specs.Text.{line};
ghost use Rattle.cfn_line.specs.Appending.{Adds, Appends, IsOpen};
ghost use Rattle.cfn_line.specs.Words.{word_text};
ghost use Rattle.cfn_line.specs.declared.channel.Channel.TheVariants.{File, Screen};

use crate::channel::Channel;
use crate::waiting::Line;
use crate::word::{AsWord, Word, add_word, put_word};
use cfn_desk::{Desk, Failed};

/// What stands behind a word that is not the last one of its line.
const SPACE: u8 = b' ';

/// What stands behind the last word of a line.
const LF: u8 = b'\n';

/// Writes a line of words. Into a file each word goes by one call, together with the byte behind it, but a fixed word
/// longer than 31 bytes by two; to the screen the line goes by one call, where it has at most 4,096 bytes. Without
/// words there is no line.
pub fn write_line<D: Desk>(channel: Channel, words: &[Word], desk: &mut D) -> Result<(), Failed>
    requires { IsOpen channel (D.outside desk.old).calls }
    ensures { Appends channel (D.outside desk.old) (line (map word_text words.now)) result
        (D.outside desk.new) }
{
    match words.split_last() {
        Some((last, front)) => write_parted(channel, front, *last, desk),
        None => Ok(()),
    }
}

/// Writes a line that begins with a fixed word and goes on with numbers, as `write_line` does.
pub fn write_list<D: Desk>(
    channel: Channel,
    name: &'static str,
    numbers: &[u32],
    desk: &mut D,
) -> Result<(), Failed>
    requires { IsOpen channel (D.outside desk.old).calls }
    ensures { Appends channel (D.outside desk.old) (line (name.now ∷ map decimal numbers.now)) result
        (D.outside desk.new) }
{
    write_list_behind(channel, &[Word::Name(name)], numbers, desk)
}

/// Writes a line that begins with words and goes on with numbers, as `write_line` does.
pub fn write_list_behind<D: Desk>(
    channel: Channel,
    words: &[Word],
    numbers: &[u32],
    desk: &mut D,
) -> Result<(), Failed>
    requires { IsOpen channel (D.outside desk.old).calls }
    ensures { Appends channel (D.outside desk.old) (line (map word_text words.now ++ map decimal numbers.now)) result
        (D.outside desk.new) }
{
    match numbers.split_last() {
        Some((last, front)) => write_behind(channel, words, front, *last, desk),
        None => write_line(channel, words, desk),
    }
}

/// Writes a line of the words of `front` and then the last one.
#[inline(always)]
fn write_parted<D: Desk>(
    channel: Channel,
    front: &[Word],
    last: Word,
    desk: &mut D,
) -> Result<(), Failed>
    requires { IsOpen channel (D.outside desk.old).calls }
    ensures { Appends channel (D.outside desk.old)
        (line (map word_text front.now ++ word_text last ∷ [])) result (D.outside desk.new) }
{
    match channel {
        Channel::File => put_words(front, &last, desk),
        Channel::Screen => say_words(front, &last, desk),
    }
}

/// Says a line of the words of `front` and then the last one.
fn say_words<D: Desk>(front: &[Word], last: &Word, desk: &mut D) -> Result<(), Failed>
    ensures { Appends Screen (D.outside desk.old)
        (line (map word_text front.now ++ word_text last.now ∷ [])) result (D.outside desk.new) }
{
    let mut line = Line::new();
    add_words(&mut line, front, last, desk)?;
    line.say(desk)
}

/// Writes a line of words, the numbers of `front`, and the last one.
fn write_behind<D: Desk>(
    channel: Channel,
    words: &[Word],
    front: &[u32],
    last: u32,
    desk: &mut D,
) -> Result<(), Failed>
    requires { IsOpen channel (D.outside desk.old).calls }
    ensures { Appends channel (D.outside desk.old)
        (line (map word_text words.now ++ (map decimal front.now ++ decimal last ∷ []))) result (D.outside desk.new) }
{
    match channel {
        Channel::File => put_behind(words, front, &last, desk),
        Channel::Screen => say_behind(words, front, &last, desk),
    }
}

/// Puts a line of words, the numbers of `front`, and the last one.
fn put_behind<D: Desk>(
    words: &[Word],
    front: &[u32],
    last: &u32,
    desk: &mut D,
) -> Result<(), Failed>
    requires { IsOpen File (D.outside desk.old).calls }
    ensures { Appends File (D.outside desk.old)
        (line (map word_text words.now ++ (map decimal front.now ++ decimal last.now ∷ []))) result (D.outside desk.new) }
{
    for word in words {
        put_word(*word, SPACE, desk)?;
    }
    put_words(front, last, desk)
}

/// Says a line of words, the numbers of `front`, and the last one.
fn say_behind<D: Desk>(
    words: &[Word],
    front: &[u32],
    last: &u32,
    desk: &mut D,
) -> Result<(), Failed>
    ensures { Appends Screen (D.outside desk.old)
        (line (map word_text words.now ++ (map decimal front.now ++ decimal last.now ∷ []))) result (D.outside desk.new) }
{
    let mut line = Line::new();
    add_behind(&mut line, words, front, last, desk)?;
    line.say(desk)
}

/// Adds a line of words, the numbers of `front`, and the last one for the screen.
fn add_behind<D: Desk>(
    into: &mut Line,
    words: &[Word],
    front: &[u32],
    last: &u32,
    desk: &mut D,
) -> Result<(), Failed>
    ensures { Adds (D.outside desk.old) into.old
        (line (map word_text words.now ++ (map decimal front.now ++ decimal last.now ∷ []))) result (D.outside desk.new) into.new }
{
    for word in words {
        add_word(into, *word, SPACE, desk)?;
    }
    add_words(into, front, last, desk)
}

/// Puts the words that end a line: those of `front` and then the last one.
#[inline(always)]
fn put_words<W: AsWord, D: Desk>(front: &[W], last: &W, desk: &mut D) -> Result<(), Failed>
    requires { IsOpen File (D.outside desk.old).calls }
    ensures { Appends File (D.outside desk.old)
        (line (map W.bytes front.now ++ W.bytes last.now ∷ [])) result (D.outside desk.new) }
{
    for word in front {
        put_word(word.as_word(), SPACE, desk)?;
    }
    put_word(last.as_word(), LF, desk)
}

/// Adds the words that end a line for the screen: those of `front` and then the last one.
fn add_words<W: AsWord, D: Desk>(
    into: &mut Line,
    front: &[W],
    last: &W,
    desk: &mut D,
) -> Result<(), Failed>
    ensures { Adds (D.outside desk.old) into.old
        (line (map W.bytes front.now ++ W.bytes last.now ∷ [])) result (D.outside desk.new) into.new }
{
    for word in front {
        add_word(into, word.as_word(), SPACE, desk)?;
    }
    add_word(into, last.as_word(), LF, desk)
}
