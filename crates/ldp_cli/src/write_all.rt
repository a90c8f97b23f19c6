ghost use Rattle.std.specs.Prelude.{◌≡◌, ◌≤◌, length};
ghost use Rattle.ldp_io.specs.Count.{Rose};
ghost use Rattle.ldp_cli.specs.Growth.{GrowsBy};

use ldp_io::{Sink, Wrote};

/// How a write ended.
#[derive(Clone, Copy, Debug, PartialEq, Eq)]
pub enum End {
    Whole,
    Failed,
    Memory,
}

/// How many bytes of a text were taken, and how its write ended.
#[derive(Clone, Copy, Debug)]
pub struct Progress {
    pub count: usize,
    pub end: End,
}

/// Writes a text up to its end or the first call that fails.
pub fn write_all<O: Sink>(sink: &mut O, text: &[u8]) -> Progress
    ensures grows { GrowsBy result.count text.now (O.written sink.old) (O.written sink.new) }
    ensures within { result.count ≤ length text.now }
    ensures whole { result.end ≡ End.Whole → result.count ≡ length text.now }
    ensures failed { result.end ≡ End.Failed → Rose (O.faults sink.old) (O.faults sink.new) }
    ensures memory { result.end ≡ End.Memory → Rose (O.wants sink.old) (O.wants sink.new) }
{
    let mut count = 0;
    while count < text.len() {
        match sink.write(&text[count..]) {
            Wrote::Took(more) => count += more,
            Wrote::Failed => return Progress {
                count,
                end: End::Failed,
            },
            Wrote::Memory => return Progress {
                count,
                end: End::Memory,
            },
        }
    }
    Progress {
        count,
        end: End::Whole,
    }
}
