ghost use Rattle.std.specs.Prelude.{◌≡◌, ◌+◌, ◌-◌, ◌*◌, ◌<◌, ◌≤◌, ◌^◌, min, take, IfOk};
ghost use Rattle.ldp_tokens.specs.Seen.{seen};
ghost use Rattle.ldp_heights.specs.Grid.{most_places};
ghost use Rattle.ldp_heights.specs.Header.{count_at};
ghost use Rattle.ldp_heights.specs.Known.{nothing, kept_value, grow, token_at};
ghost use Rattle.ldp_heights.specs.Known.{kept_first};
ghost use Rattle.ldp_heights.specs.Stages.{known_count};
ghost use Rattle.ldp_heights.specs.Ranges.{IsCount};

use crate::fault::HeightFault;
use crate::layout::MOST_PLACES;
use ldp_tokens::Token;
use std::marker::Model;

/// The bytes of a token that are kept: one more than a number may have.
const MOST_KEPT: usize = 65;

/// What is known of a token whose end was not met yet.
#[derive(Drop)]
pub struct OpenToken {
    len: usize,
    first: [u8; MOST_KEPT],
    digits: bool,
    value: u32,
}

impl Model for OpenToken {
    ghost use Rattle.std.specs.Prelude.{◌+◌, ◌≤◌, min, take};
    ghost use Rattle.ldp_heights.specs.Grid.{most_places};
    ghost use Rattle.ldp_heights.specs.Known.{Known};

    ghost Value = { Known };

    ghost view = { λ token. record {
      len = token.len;
      first = take (min token.len 65) token.first;
      digits = token.digits;
      value = token.value;
    } };

    ghost invariant = { λ token. token.value ≤ most_places + 1 };
}

impl OpenToken {
    /// Without a byte.
    pub fn empty() -> Self
        ensures { result ≡ nothing }
    {
        OpenToken {
            len: 0,
            first: [0; MOST_KEPT],
            digits: true,
            value: 0,
        }
    }

    /// How many bytes it has.
    pub fn len(&self) -> usize
        ensures { result ≡ self.now.len }
    {
        self.len
    }

    /// Its first bytes.
    pub fn first(&self) -> &[u8]
        ensures { result.now ≡ self.now.first }
    {
        &self.first[..self.len.min(MOST_KEPT)]
    }

    /// The token, up to the last byte that is kept.
    pub fn token(&self, place: usize) -> Token<'_>
        ensures { seen result ≡ token_at place self.now }
    {
        Token {
            place,
            bytes: self.first(),
        }
    }

    /// The count of rows or columns that it stands for.
    pub fn count(&self, place: usize) -> Result<u32, HeightFault>
        ensures value { result ≡ known_count place self.now }
        ensures range { IfOk result IsCount }
    {
        if !self.digits {
            return Err(HeightFault::BadNumber(place));
        }
        if self.value < 1 || self.value > MOST_PLACES {
            return Err(HeightFault::OutOfRange(place));
        }
        Ok(self.value)
    }

    /// Takes one more byte.
    #[tactic(auto, unfolding(crate::specs::Known::grow))]
    pub fn grow(&mut self, byte: u8)
        requires { self.old.len + 1 < 2 ^ 64 }
        ensures value { self.new ≡ grow self.old byte }
        ensures len { self.new.len ≡ self.old.len + 1 }
    {
        keep(&mut self.first, self.len, byte);
        self.digits = self.digits && byte.is_ascii_digit();
        if self.digits {
            self.value = with_digit(self.value, byte);
        }
        self.len += 1;
    }
}

/// Writes the byte behind the first `len` ones, where it is among those to keep.
#[tactic(auto, using(crate::proofs::FirstBytes::kept_under, crate::proofs::FirstBytes::kept_over))]
fn keep(first: &mut [u8; MOST_KEPT], len: usize, byte: u8)
    ensures { take (min (len + 1) 65) first.new
        ≡ kept_first (take (min len 65) first.old) len byte }
{
    if len < MOST_KEPT {
        first[len] = byte;
    }
}

/// A value with one more digit, or one that is too great.
fn with_digit(value: u32, digit: u8) -> u32
    requires { value ≤ most_places + 1 }
    ensures { result ≡ kept_value (value * 10 + (digit - 48)) }
{
    (value * 10 + u32::from(digit.saturating_sub(b'0'))).min(MOST_PLACES + 1)
}
