ghost use Rattle.std.specs.Prelude.{◌≡◌, false, Some, IfOk, IfErr, IfSome, map, string_bytes};
ghost use Rattle.ldp_cli.specs.Files.{ServesFrom, Gives, StopsIn};
ghost use Rattle.ldp_cli.specs.Commands.{request, request_named, files_of, answer_to, Shows};
ghost use Rattle.ldp_cli.specs.Commands.{sampled_in};
ghost use Rattle.ldp_cli.specs.Sample.{sample_answer};

use crate::certificate::{JobWords, job_words};
use crate::check::{check, upgrade};
use crate::design::{DesignWords, design, design_words};
use crate::eval::{EvalWords, eval, eval_words};
use crate::sample::{SampleWords, sample, sample_words};
use crate::stop::Stop;
use crate::table::{TableWords, table, table_words};
use crate::wkt::{WktWords, wkt, wkt_words};
use ldp_answer::Answer;
use ldp_io::Shelf;
use std::alloc::Global;

/// What the words after the program's name ask for.
#[derive(Drop)]
pub enum Request<'a> {
    Eval(EvalWords<'a>),
    Design(DesignWords<'a>),
    Check(JobWords<'a>),
    Upgrade(JobWords<'a>),
    Table(TableWords<'a>),
    Wkt(WktWords<'a>),
    Sample(SampleWords),
}

/// The request of the words, if they are in a form and each number is in its range.
pub fn request_of(words: &[String]) -> Option<Request<'_>>
    ensures { result ≡ request (map string_bytes words.now) }
{
    match words {
        [] => None,
        [name, words @ ..] => request_named(name.as_str(), words),
    }
}

/// The request of a command's name and the words after it.
fn request_named<'a>(name: &str, words: &'a [String]) -> Option<Request<'a>>
    ensures { result ≡ request_named name.now (map string_bytes words.now) }
{
    if name == "eval" {
        return Some(Request::Eval(eval_words(words)?));
    }
    if name == "check" {
        return Some(Request::Check(job_words(words)?));
    }
    if name == "design" {
        return Some(Request::Design(design_words(words)?));
    }
    if name == "upgrade" {
        return Some(Request::Upgrade(job_words(words)?));
    }
    if name == "table" {
        return Some(Request::Table(table_words(words)?));
    }
    if name == "wkt" {
        return Some(Request::Wkt(wkt_words(words)?));
    }
    if name == "sample" {
        return Some(Request::Sample(sample_words(words)?));
    }
    None
}

/// The answer to a request. Nothing is written.
pub fn answer<H: Shelf>(alloc: Global, shelf: &mut H, request: &Request<'_>) -> Result<Answer, Stop>
    requires { ServesFrom (H.serves shelf.old) 0 (files_of request.now) }
    ensures told { IfSome (H.files shelf.old) (λ files.
        Gives result (answer_to request.now files)) }
    ensures sampled { IfSome (sampled_in (Some request.now)) (λ asked.
        Gives result (sample_answer asked)) }
    ensures stops { IfErr result (λ stop. StopsIn (files_of request.now) stop
        (H.faults shelf.old) (H.faults shelf.new) (H.files shelf.old)) }
    ensures shows { IfOk result (λ answer. answer.rejected ≡ false
        → IfSome (H.files shelf.old) (λ files. Shows (Some request.now) files)) }
{
    match request {
        Request::Eval(words) => eval(alloc, shelf, words),
        Request::Design(words) => design(alloc, shelf, words),
        Request::Check(words) => check(alloc, shelf, words),
        Request::Upgrade(words) => upgrade(alloc, shelf, words),
        Request::Table(words) => table(alloc, shelf, words),
        Request::Wkt(words) => wkt(alloc, shelf, words),
        Request::Sample(words) => Ok(sample(alloc, words)?),
    }
}
