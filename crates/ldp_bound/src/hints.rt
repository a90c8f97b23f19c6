/// How many cells are kept.
const COUNT: usize = 8;

/// The cells that had the greatest value in the last bounds of boxes of more than one design; at
/// first none.
#[derive(Drop)]
pub struct Hints {
    cells: [u32; COUNT],
    added: u64,
}

impl Hints {
    /// No cell.
    pub fn new() -> Hints {
        Hints {
            cells: [0; COUNT],
            added: 0,
        }
    }

    /// The cells, each once.
    pub fn cells(&self) -> &[u32] {
        let count = (self.added as usize).min(COUNT);
        &self.cells[..count]
    }

    /// Takes the place of the one that was kept longest, unless it is there.
    pub fn add(&mut self, cell: u32) {
        if self.cells().contains(&cell) {
            return;
        }
        let at = self.added as usize % COUNT;
        self.cells[at] = cell;
        self.added = self.added.wrapping_add(1);
    }
}
