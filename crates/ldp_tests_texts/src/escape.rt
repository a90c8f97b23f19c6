use anyhow::{Context, Result};
use std::alloc::Global;

/// The bytes that a text of the script stands for.
pub fn bytes_of(alloc: Global, text: &str) -> Result<Vec<u8>> {
    let mut bytes = Vec::new(alloc);
    for (index, piece) in text.split('\\').enumerate() {
        let mut plain = piece.as_bytes();
        if index > 0 {
            let (byte, rest) = escaped(plain).context("no such escape")?;
            bytes.push(byte)?;
            plain = rest;
        }
        bytes.extend_from_slice(plain)?;
    }
    Ok(bytes)
}

/// The byte that stands behind a backslash, and what comes after it.
fn escaped(piece: &[u8]) -> Option<(u8, &[u8])> {
    match piece {
        [b'n', rest @ ..] => Some((b'\n', rest)),
        [b'r', rest @ ..] => Some((b'\r', rest)),
        [b't', rest @ ..] => Some((b'\t', rest)),
        [b'x', high, low, rest @ ..] => Some(((digit(*high)? << 4) | digit(*low)?, rest)),
        _ => None,
    }
}

fn digit(byte: u8) -> Option<u8> {
    match byte {
        b'0'..=b'9' => Some(byte - b'0'),
        b'a'..=b'f' => Some(byte - b'a' + 10),
        _ => None,
    }
}

/// Prints bytes between quotes, as the script writes them, and ends the line.
pub fn put_bytes(rt: &impl Print, bytes: &[u8]) -> Result<()> {
    print!(rt; "\"")?;
    for byte in bytes {
        put_byte(rt, *byte)?;
    }
    println!(rt; "\"")?;
    Ok(())
}

fn put_byte(rt: &impl Print, byte: u8) -> Result<()> {
    match byte {
        b'\n' => print!(rt; "\\n")?,
        b' '..=b'~' => print!(rt; "{}", char::from(byte))?,
        _ => print!(rt; "\\x{byte:02x}")?,
    }
    Ok(())
}

/// Prints an answer that is bytes.
pub fn answer_bytes(rt: &impl Print, bytes: &[u8]) -> Result<()> {
    print!(rt; "= ")?;
    put_bytes(rt, bytes)
}
