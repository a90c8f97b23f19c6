ghost use Rattle.std.specs.Prelude.{◌≡◌, ◌≤◌, None, Some, bytes_eq, MatchOption, IfSome};
ghost use Rattle.ldp_spelling.specs.Pieces.{words};
ghost use Rattle.ldp_num.specs.Number.{limit};
ghost use Rattle.ldp_job.specs.Words.{number_in, name_in, lone_in};

use ldp_spelling::{Words, read_whole};

/// Whether a word is this text, byte for byte.
pub fn is(word: &[u8], text: &[u8]) -> bool
    ensures { result ≡ bytes_eq word.now text.now }
{
    word == text
}

/// Takes this very word.
pub fn name(words: &mut Words<'_>, name: &[u8]) -> Option<()>
    ensures { MatchOption result (name_in name.now words.old ≡ None)
        (λ found. name_in name.now words.old ≡ Some words.new) }
{
    if is(words.next()?, name) {
        Some(())
    } else {
        None
    }
}

/// Takes a whole number.
pub fn number(words: &mut Words<'_>, low: u64, high: u64) -> Option<u64>
    requires { high ≤ limit }
    ensures value { MatchOption result (number_in low high words.old ≡ None)
        (λ n. number_in low high words.old ≡ Some (n, words.new)) }
    ensures range { IfSome result (λ n. n ≤ high) }
{
    read_whole(words.next()?, low, high)
}

/// The one word behind a name.
pub fn lone_word<'a>(line: &'a [u8], name: &[u8]) -> Option<&'a [u8]>
    ensures { MatchOption result (lone_in name.now (words line.now) ≡ None)
        (λ word. lone_in name.now (words line.now) ≡ Some word.now) }
{
    let mut words = Words::of_line(line);
    let first = words.next()?;
    let second = words.next()?;
    if words.is_empty() && is(first, name) {
        Some(second)
    } else {
        None
    }
}
