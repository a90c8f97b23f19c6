ghost use Rattle.std.specs.Prelude.{◌≡◌, ◌≤◌, length};
ghost use Rattle.ldp_message.specs.FileRole.{role_name};

/// What a file of a command is for.
#[derive(Clone, Copy, Debug, PartialEq, Eq)]
pub enum FileRole {
    Zone,
    Heights,
    Grids,
    Job,
}

impl FileRole {
    /// Its name in a line of the error output.
    pub fn name(self) -> &'static [u8]
        ensures name { result.now ≡ role_name self }
        ensures short { length result.now ≤ 7 }
    {
        match self {
            FileRole::Zone => b"zone",
            FileRole::Heights => b"heights",
            FileRole::Grids => b"grids",
            FileRole::Job => b"job",
        }
    }
}
