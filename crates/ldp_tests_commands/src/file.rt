use std::alloc::{AllocError, Global};

/// A file of a script.
#[derive(Drop)]
pub struct NamedFile {
    pub name: String,
    pub bytes: Vec<u8>,
}

impl NamedFile {
    pub fn new(alloc: Global, name: &str, bytes: &[u8]) -> Result<NamedFile, AllocError> {
        Ok(NamedFile {
            name: String::from_str(alloc, name)?,
            bytes: Vec::from_slice(alloc, bytes)?,
        })
    }

    /// Appends a line so many times.
    pub fn append_lines(&mut self, times: u32, text: &str) -> Result<(), AllocError> {
        for _ in 0..times {
            self.bytes.extend_from_slice(text.as_bytes())?;
            self.bytes.push(b'\n')?;
        }
        Ok(())
    }

    /// Replaces the line of this number, counted from 1. Answers whether there is one.
    pub fn replace_line(&mut self, number: usize, text: &str) -> Result<bool, AllocError> {
        let mut bytes = Vec::new(*self.bytes.allocator());
        let mut replaced = false;
        for (index, line) in self
            .bytes
            .split_inclusive(|byte| *byte == b'\n')
            .enumerate()
        {
            if index.checked_add(1) == Some(number) {
                bytes.extend_from_slice(text.as_bytes())?;
                bytes.push(b'\n')?;
                replaced = true;
            } else {
                bytes.extend_from_slice(line)?;
            }
        }
        self.bytes = bytes;
        Ok(replaced)
    }

    /// Keeps so many lines, the first ones. Answers whether there are so many.
    pub fn keep_lines(&mut self, count: usize) -> Result<bool, AllocError> {
        let mut bytes = Vec::new(*self.bytes.allocator());
        let mut enough = count == 0;
        for (index, line) in self
            .bytes
            .split_inclusive(|byte| *byte == b'\n')
            .enumerate()
            .take(count)
        {
            bytes.extend_from_slice(line)?;
            enough = index.checked_add(1) == Some(count);
        }
        self.bytes = bytes;
        Ok(enough)
    }
}
