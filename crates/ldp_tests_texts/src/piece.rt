use crate::escape::bytes_of;
use anyhow::{Context, Result};
use std::alloc::{AllocError, Global};

/// The text with a piece in place of so many bytes: `PLACE COUNT PIECE`.
pub fn changed(alloc: Global, rest: &str, text: &[u8]) -> Result<Vec<u8>> {
    let (place, rest) = rest.split_once(' ').context("a place")?;
    let (length, piece) = rest.split_once(' ').unwrap_or((rest, ""));
    let place = place.parse::<usize>()?;
    let length = length.parse::<usize>()?;
    let piece = bytes_of(alloc, piece)?;
    Ok(with_piece(alloc, text, place, length, &piece)?)
}

fn with_piece(
    alloc: Global,
    text: &[u8],
    place: usize,
    length: usize,
    piece: &[u8],
) -> Result<Vec<u8>, AllocError> {
    let (front, rest) = text.split_at(place.min(text.len()));
    let (_, back) = rest.split_at(length.min(rest.len()));
    let mut changed = Vec::from_slice(alloc, front)?;
    changed.extend_from_slice(piece)?;
    changed.extend_from_slice(back)?;
    Ok(changed)
}
