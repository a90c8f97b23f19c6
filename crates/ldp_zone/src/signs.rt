ghost use Rattle.std.specs.Prelude.{◌≡◌};
ghost use Rattle.std.specs.Str.{str_eq_ignore_ascii_case};
ghost use Rattle.ldp_tokens.specs.Seen.{seen};
ghost use Rattle.ldp_zone.specs.Signs.{is_open, is_close, is_comma, is_run};

use ldp_tokens::Token;

/// Whether a token is a word, in any case.
pub fn is_word(token: &Token<'_>, word: &[u8]) -> bool
    ensures { result ≡ str_eq_ignore_ascii_case token.now.bytes.now word.now }
{
    token.bytes.eq_ignore_ascii_case(word)
}

/// Whether a token is a `(`.
#[tactic(auto, unfolding(crate::specs::Signs::is_open))]
pub fn is_open(token: &Token<'_>) -> bool
    ensures { result ≡ is_open (seen token.now) }
{
    is_word(token, b"(")
}

/// Whether a token is a `)`.
#[tactic(auto, unfolding(crate::specs::Signs::is_close))]
pub fn is_close(token: &Token<'_>) -> bool
    ensures { result ≡ is_close (seen token.now) }
{
    is_word(token, b")")
}

/// Whether a token is a `,`.
#[tactic(auto, unfolding(crate::specs::Signs::is_comma))]
pub fn is_comma(token: &Token<'_>) -> bool
    ensures { result ≡ is_comma (seen token.now) }
{
    is_word(token, b",")
}

/// Whether a token is no sign.
#[tactic(auto, unfolding(crate::specs::Signs::is_run))]
pub fn is_run(token: &Token<'_>) -> bool
    ensures { result ≡ is_run (seen token.now) }
{
    !(is_open(token) || is_close(token) || is_comma(token))
}
