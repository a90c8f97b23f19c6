ghost use Rattle.std.specs.Prelude.{◌≡◌, ◌≤◌, [], ◌∷◌, length, MatchOption};
ghost use Rattle.std.specs.List.{prefix_len, position_or_len};
ghost use Rattle.ldp_tokens.specs.Tokens.{is_white, is_sign, ends_run, token_len, tokens_of};
ghost use Rattle.ldp_tokens.specs.Seen.{seen};

use crate::mark::skip_mark;
use std::marker::Model;

/// A sign, or a run of bytes that are no sign and no white space.
#[derive(Clone, Copy)]
pub struct Token<'a> {
    /// The place of its first byte in the text, counted from 0.
    pub place: usize,
    pub bytes: &'a [u8],
}

/// A reader of the tokens of a text, seen as the list of those that are left.
#[derive(Drop)]
pub struct Tokens<'a> {
    text: &'a [u8],
    signs: &'a [u8],
    place: usize,
}

impl<'a> Model for Tokens<'a> {
    ghost use Rattle.std.specs.Prelude.{List, ◌+◌, ◌<◌, ◌^◌, length};
    ghost use Rattle.ldp_tokens.specs.Tokens.{Token, tokens};

    ghost Value = { List Token };

    ghost view = { λ reader. tokens reader.signs.now reader.place reader.text.now };

    ghost invariant = { λ reader. reader.place + length reader.text.now < 2 ^ 64 };
}

impl<'a> Tokens<'a> {
    /// The tokens of a whole text. A mark EF BB BF in front is skipped and counted. A sign that is
    /// white space counts as white space.
    pub fn of_text(text: &'a [u8], signs: &'a [u8]) -> Self
        ensures { result ≡ tokens_of signs.now text.now }
    {
        let rest = skip_mark(text);
        Tokens {
            text: rest,
            signs,
            place: text.len() - rest.len(),
        }
    }

    /// Takes the first token that is left.
    pub fn next(&mut self) -> Option<Token<'a>>
        ensures { MatchOption result ((self.old ≡ []) × (self.new ≡ []))
            (λ token. self.old ≡ seen token ∷ self.new) }
    {
        let gap = white_len(self.text);
        let (_, text) = self.text.split_at(gap);
        let length = token_len(self.signs, text);
        let (bytes, rest) = text.split_at(length);
        let place = self.place + gap;
        self.text = rest;
        self.place = place + length;
        if text.is_empty() {
            return None;
        }
        Some(Token { place, bytes })
    }
}

/// How many bytes of white space a text begins with.
fn white_len(text: &[u8]) -> usize
    ensures value { result ≡ prefix_len is_white text.now }
    ensures within { result ≤ length text.now }
{
    text.iter().take_while(|byte| is_white(**byte)).count()
}

/// The length of the token that a text begins with.
fn token_len(signs: &[u8], text: &[u8]) -> usize
    ensures value { result ≡ token_len signs.now text.now }
    ensures within { result ≤ length text.now }
{
    match text {
        [first, ..] if is_sign(signs, *first) => 1,
        _ => run_len(signs, text),
    }
}

/// How many bytes stand before the first white space or sign of a text.
fn run_len(signs: &[u8], text: &[u8]) -> usize
    ensures value { result ≡ position_or_len (ends_run signs.now) text.now }
    ensures within { result ≤ length text.now }
{
    text.iter()
        .take_while(|byte| !ends_run(signs, **byte))
        .count()
}

fn ends_run(signs: &[u8], byte: u8) -> bool
    ensures { result ≡ ends_run signs.now byte }
{
    is_white(byte) || is_sign(signs, byte)
}

fn is_white(byte: u8) -> bool
    ensures { result ≡ is_white byte }
{
    matches!(byte, b' ' | b'\t' | b'\n' | b'\r')
}

fn is_sign(signs: &[u8], byte: u8) -> bool
    ensures { result ≡ is_sign signs.now byte }
{
    // There are few signs: a plain loop takes less time than `contains`, which goes by groups.
    signs.iter().any(|sign| *sign == byte)
}
