ghost use Rattle.std.specs.Prelude.{◌≡◌, ◌≤◌, [], length};
ghost use Rattle.ldp_cli.specs.Ending.{ending_status, ending_text, ending_line};

use ldp_message::{FileRole, Line, Refusal};

/// How a run ends.
#[derive(Clone, Copy, Debug, PartialEq, Eq)]
pub enum Ending {
    /// The words are in no form, or a number in them is out of its range.
    Usage,
    /// The answer was written in full.
    Printed { rejected: bool },
    Refused(Refusal),
    /// A file could not be read: its place among the files of the words, from 0.
    Unread { place: u8, role: FileRole },
    /// The answer could not be written in full.
    Unwritten,
    Memory,
}

impl Ending {
    /// The exit status.
    pub fn status(self) -> u8
        ensures { result ≡ ending_status self }
    {
        match self {
            Ending::Printed { rejected } => { if rejected { 1 } else { 0 } }
            Ending::Usage => 2,
            Ending::Unread { .. } => 3,
            Ending::Refused(refusal) => refusal.status(),
            Ending::Unwritten => 8,
            Ending::Memory => 9,
        }
    }

    /// The line for the error output. Takes no memory.
    pub fn line(self) -> Line
        ensures { result ≡ ending_line self }
    {
        let mut line = Line::new();
        self.put(&mut line);
        line.push(b"\n");
        line
    }

    /// Puts the text into an empty line.
    fn put(self, line: &mut Line)
        requires { line.old ≡ [] }
        ensures text { line.new ≡ ending_text self }
        ensures short { length line.new ≤ 63 }
    {
        match self {
            Ending::Usage => line.push(b"usage"),
            Ending::Printed { .. } => {}
            Ending::Refused(refusal) => refusal.put(line),
            Ending::Unread { role, .. } => line.push_two(b"cannot read ", role.name()),
            Ending::Unwritten => line.push(b"cannot write"),
            Ending::Memory => line.push(b"out of memory"),
        }
    }
}
