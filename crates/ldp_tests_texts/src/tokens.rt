use crate::escape::{answer_bytes, bytes_of, put_bytes};
use anyhow::{Context, Result};
use ldp_tokens::{Token, Tokens, skip_mark};

/// The tokens of a text with their places: `tokens SIGNS TEXT`.
pub fn tokens(rt: &(impl Print + AllocGlobal), rest: &str) -> Result<()> {
    let (signs, text) = rest.split_once(' ').context("signs and a text")?;
    let signs = bytes_of(rt.alloc(), signs)?;
    let text = bytes_of(rt.alloc(), text)?;
    put_tokens(rt, &signs, &text)
}

fn put_tokens(rt: &impl Print, signs: &[u8], text: &[u8]) -> Result<()> {
    let mut tokens = Tokens::of_text(text, signs);
    for _ in 0..=text.len() {
        let Some(token) = tokens.next() else {
            println!(rt; "= None")?;
            break;
        };
        put_token(rt, &token)?;
    }
    Ok(())
}

fn put_token(rt: &impl Print, token: &Token<'_>) -> Result<()> {
    print!(rt; "= {} ", token.place)?;
    put_bytes(rt, token.bytes)
}

/// A text with no mark in front.
pub fn unmarked(rt: &impl Print, text: &[u8]) -> Result<()> {
    answer_bytes(rt, skip_mark(text))
}
