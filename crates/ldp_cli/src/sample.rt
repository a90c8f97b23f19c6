ghost use Rattle.std.specs.Prelude.{◌≡◌, false, IfOk, IfSome, map, string_bytes};
ghost use Rattle.ldp_spelling.specs.Numbers.{whole_in};
ghost use Rattle.ldp_answer.specs.Works.{Works};
ghost use Rattle.ldp_answer.specs.SampleInputs.{IsSampleNumber};
ghost use Rattle.ldp_cli.specs.Sample.{sample_request, sample_answer, IsSampled};

use ldp_answer::{Answer, WorkFault, sample_over};
use ldp_spelling::read_whole;
use std::alloc::Global;
use std::marker::Model;

/// The word after `sample`.
#[derive(Drop)]
pub struct SampleWords {
    number: u32,
}

impl Model for SampleWords {
    ghost use Rattle.ldp_answer.specs.SampleInputs.{IsSampleNumber};
    ghost use Rattle.ldp_cli.specs.Sample.{SampleRequest};

    ghost Value = { SampleRequest };

    ghost view = { λ words. record { number = words.number } };

    ghost invariant = { λ words. IsSampleNumber words.number };
}

impl SampleWords {
    fn number(&self) -> u32
        ensures value { result ≡ self.now.number }
        ensures range { IsSampleNumber result }
    {
        self.number
    }
}

/// The word after `sample`, if it is alone and its number is in its range.
pub fn sample_words(words: &[String]) -> Option<SampleWords>
    ensures { result ≡ sample_request (map string_bytes words.now) }
{
    match words {
        [word] => Some(SampleWords {
            number: sample_number(word.as_bytes())?,
        }),
        _ => None,
    }
}

fn sample_number(word: &[u8]) -> Option<u32>
    ensures value { result ≡ whole_in 1 100_000 word.now }
    ensures range { IfSome result IsSampleNumber }
{
    let number = read_whole(word, 1, 100_000)?;
    Some(number as u32)
}

/// The best design of a sample. No file is taken.
pub fn sample(alloc: Global, words: &SampleWords) -> Result<Answer, WorkFault>
    ensures answer { Works result (sample_answer words.now) }
    ensures sampled { IfOk result (λ answer. answer.rejected ≡ false → IsSampled words.now) }
{
    sample_over(alloc, words.number())
}
