ghost use Rattle.std.specs.Prelude.{◌≡◌, ◌≢◌, ◌+◌, ◌<◌, ◌^◌, length, nat_eq, IsTrue, IsOk, OnOk};
ghost use Rattle.std.specs.List.{starts_with};
ghost use Rattle.ldp_tokens.specs.Mark.{mark};
ghost use Rattle.ldp_tokens.specs.Tokens.{is_white};
ghost use Rattle.ldp_heights.specs.Known.{grow};
ghost use Rattle.ldp_heights.specs.Stages.{is_started};
ghost use Rattle.ldp_heights.specs.Pieces.{start, closed, white, grown, byte, go, end};

use crate::fault::HeightFault;
use crate::grid::Heights;
use crate::open_token::OpenToken;
use crate::progress::Progress;
use std::alloc::{AllocError, Global};
use std::marker::Model;

/// The state of reading a text in pieces.
#[derive(Drop)]
pub struct Reading {
    taken: usize,
    progress: Progress,
    /// The place of the unfinished token.
    place: usize,
    token: OpenToken,
}

impl Model for Reading {
    ghost use Rattle.std.specs.Prelude.{◌≤◌};
    ghost use Rattle.ldp_heights.specs.Pieces.{State};

    ghost Value = { State };

    ghost view = { λ reading. record {
      taken = reading.taken;
      sofar = reading.progress;
      place = reading.place;
      token = reading.token;
    } };

    ghost invariant = { λ reading. reading.token.len ≤ reading.taken };
}

impl Reading {
    /// Before the first byte.
    pub fn start(alloc: Global) -> Self
        ensures { result ≡ start }
    {
        Reading {
            taken: 0,
            progress: Progress::start(alloc),
            place: 0,
            token: OpenToken::empty(),
        }
    }

    /// Whether the header has ended or a fault was met.
    pub fn is_started(&self) -> bool
        ensures { result ≡ is_started self.now.sofar }
    {
        self.progress.is_started()
    }

    /// Takes the next piece of the text.
    pub fn feed(&mut self, piece: &[u8]) -> Result<(), AllocError>
        requires { self.old.taken + length piece.now < 2 ^ 64 }
        ensures taken { OnOk result (self.new ≡ go self.old piece.now) }
        ensures count { OnOk result (self.new.taken ≡ self.old.taken + length piece.now) }
        ensures started { IsTrue (is_started self.old.sofar) → IsOk result }
    {
        for byte in piece {
            self.take(*byte)?;
        }
        Ok(())
    }

    /// Takes the next byte of the text.
    #[tactic(auto, unfolding(crate::specs::Pieces::byte))]
    fn take(&mut self, next: u8) -> Result<(), AllocError>
        requires { self.old.taken + 1 < 2 ^ 64 }
        ensures taken { OnOk result (self.new ≡ byte self.old next) }
        ensures count { OnOk result (self.new.taken ≡ self.old.taken + 1) }
        ensures started { IsTrue (is_started self.old.sofar) → IsOk result }
        ensures stays { OnOk result
            (IsTrue (is_started self.old.sofar) → IsTrue (is_started self.new.sofar)) }
    {
        if is_white(next) {
            return self.end_token();
        }
        self.grow_token(next);
        Ok(())
    }

    /// Takes a byte of white space.
    fn end_token(&mut self) -> Result<(), AllocError>
        requires { self.old.taken + 1 < 2 ^ 64 }
        ensures taken { OnOk result (self.new ≡ white self.old) }
        ensures started { IsTrue (is_started self.old.sofar) → IsOk result }
        ensures stays { OnOk result
            (IsTrue (is_started self.old.sofar) → IsTrue (is_started self.new.sofar)) }
    {
        self.close()?;
        self.taken += 1;
        self.place = self.taken;
        self.token = OpenToken::empty();
        Ok(())
    }

    /// Takes a byte of a token.
    fn grow_token(&mut self, next: u8)
        requires { self.old.taken + 1 < 2 ^ 64 }
        ensures { self.new ≡ grown self.old (grow self.old.token next) }
    {
        self.token.grow(next);
        self.taken += 1;
        if self.place == 0 && is_mark(self.token.first()) {
            self.place = self.taken;
            self.token = OpenToken::empty();
        }
    }

    /// Takes the unfinished token as a whole one.
    fn close(&mut self) -> Result<(), AllocError>
        ensures taken { OnOk result (self.new ≡ record self.old { sofar = closed self.old }) }
        ensures started { IsTrue (is_started self.old.sofar) → IsOk result }
        ensures stays { OnOk result
            (IsTrue (is_started self.old.sofar) → IsTrue (is_started self.new.sofar)) }
    {
        if self.token.len() > 0 {
            self.progress.take(self.place, &self.token)?;
        }
        Ok(())
    }

    /// The answer at the end of the text.
    pub fn finish(mut self) -> Result<Heights, HeightFault>
        ensures exact { result ≢ Err HeightFault.Memory → result ≡ end self }
        ensures started { IsTrue (is_started self.sofar) → result ≡ end self }
    {
        self.close()?;
        self.progress.finish(self.taken)
    }
}

/// Space, tab, line feed and carriage return.
fn is_white(byte: u8) -> bool
    ensures { result ≡ is_white byte }
{
    matches!(byte, b' ' | b'\t' | b'\n' | b'\r')
}

/// Whether a token begins with a mark.
fn is_mark(bytes: &[u8]) -> bool
    ensures { result ≡ starts_with nat_eq bytes.now mark }
{
    matches!(bytes, [0xef, 0xbb, 0xbf, ..])
}
