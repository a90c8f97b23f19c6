/// The files that a job speaks of, each by its SHA-256 hash.
#[derive(Clone, Copy, Debug, PartialEq, Eq)]
pub struct Names {
    pub zone: [u8; 32],
    pub heights: [u8; 32],
    pub grids: [u8; 32],
}

/// What a file is for.
#[derive(Clone, Copy, Debug, PartialEq, Eq)]
pub enum Role {
    Zone,
    Heights,
    Grids,
}
