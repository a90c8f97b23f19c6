// A file in memory.
ghost use Rattle.std.specs.Prelude.{◌≡◌, IfOk, string_bytes};
ghost use Rattle.ldp_io.specs.Folder.{File as NamedBytes, is_named as has_name};

use crate::Memory;
use std::alloc::Global;
use std::marker::Model;

#[derive(Drop)]
pub(crate) struct MemoryFile {
    name: String,
    bytes: Vec<u8>,
}

impl Model for MemoryFile {
    ghost Value = { NamedBytes };

    ghost view = { λ f. record { name = string_bytes f.name; bytes = f.bytes.items } };
}

impl MemoryFile {
    pub(crate) fn new(alloc: Global, name: &str, bytes: &[u8]) -> Result<MemoryFile, Memory>
        ensures { IfOk result (λ file. file ≡ record { name = name.now; bytes = bytes.now }) }
    {
        let name = String::from_str(alloc, name)?;
        let bytes = Vec::from_slice(alloc, bytes)?;
        Ok(MemoryFile { name, bytes })
    }

    pub(crate) fn is_named(&self, name: &str) -> bool
        ensures { result ≡ has_name name.now self.now }
    {
        self.name.as_str() == name
    }

    pub(crate) fn bytes(&self) -> &[u8]
        ensures { result.now ≡ self.now.bytes }
    {
        &self.bytes
    }
}
