ghost use Rattle.std.specs.Prelude.{◌≡◌, ◌↔◌, ◌⊎◌, ℕ, ◌≤◌, [], ◌∷◌, map, string_bytes};
ghost use Rattle.std.specs.Prelude.{false, None, Ok, Some, IfSome};
ghost use Rattle.ldp_io.specs.Count.{Rose};
ghost use Rattle.ldp_cli.specs.Files.{HasFailed};
ghost use Rattle.ldp_cli.specs.Commands.{request, asked_in, sampled_in, outcome, Serves, Shows};
ghost use Rattle.ldp_cli.specs.Sample.{sample_answer};
ghost use Rattle.ldp_cli.specs.Ending.{IsOneOf, ending_status, Answers, Tells};
ghost use Rattle.ldp_cli.specs.Ending.{EndsAs, EndsIn, IsOfWriting, KeepsOutput};

use crate::commands::{answer, request_of};
use crate::ending::Ending;
use crate::stop::Stop;
use crate::write_all::{End, write_all};
use ldp_answer::Answer;
use ldp_io::{Shelf, Sink};
use ldp_message::FileRole;
use std::alloc::Global;

/// Carries out the command of the words after the program's name, and answers its status.
pub fn run_words<H: Shelf, O: Sink, E: Sink>(
    alloc: Global,
    words: &[String],
    shelf: &mut H,
    out: &mut O,
    err: &mut E,
) -> u8
    requires { Serves (H.serves shelf.old) (map string_bytes words.now) }
    // Whatever the shelf and the sinks tell.
    ensures range { result ≤ 10 }
    ensures usage { (result ≡ 2) ↔ (request (map string_bytes words.now) ≡ None) }
    ensures unread { result ≡ 3 → (place : ℕ) × (role : FileRole) × HasFailed place role
        (asked_in (request (map string_bytes words.now)))
        (H.faults shelf.old) (H.faults shelf.new) (H.files shelf.old) }
    ensures unwritten { result ≡ 8 → Rose (O.faults out.old) (O.faults out.new) }
    ensures unchanged { IsOneOf result (2 ∷ 3 ∷ 4 ∷ 5 ∷ 6 ∷ 7 ∷ 10 ∷ [])
        → O.written out.new ≡ O.written out.old }
    // Where the shelf tells its files: the status and the output.
    ensures answers { IfSome (H.files shelf.old) (λ files. Answers result
        (outcome (map string_bytes words.now) files) (O.written out.old) (O.written out.new)) }
    // `sample` takes no file: what it answers holds over every shelf.
    ensures sampled { IfSome (sampled_in (request (map string_bytes words.now))) (λ asked. Answers
        result (Some (sample_answer asked)) (O.written out.old) (O.written out.new)) }
    // What status 0 shows.
    ensures shows { result ≡ 0 → IfSome (H.files shelf.old) (λ files.
        Shows (request (map string_bytes words.now)) files) }
    // The error output.
    ensures line { IsOneOf result (0 ∷ 1 ∷ []) ⊎ Tells result
        (asked_in (request (map string_bytes words.now))) (outcome (map string_bytes words.now))
        (H.faults shelf.old) (H.faults shelf.new) (H.files shelf.old)
        (E.written err.old) (E.written err.new)
        (Rose (E.faults err.old) (E.faults err.new) ⊎ Rose (E.wants err.old) (E.wants err.new)) }
    ensures quiet { IsOneOf result (0 ∷ 1 ∷ []) → E.written err.new ≡ E.written err.old }
{
    let ending = carry_out(alloc, words, shelf, out);
    match ending {
        Ending::Printed { .. } => {}
        _ => {
            write_all(err, ending.line().bytes());
        }
    }
    ending.status()
}

/// Carries out the command, but for the line on the error output.
fn carry_out<H: Shelf, O: Sink>(
    alloc: Global,
    words: &[String],
    shelf: &mut H,
    out: &mut O,
) -> Ending
    requires { Serves (H.serves shelf.old) (map string_bytes words.now) }
    ensures usage { (result ≡ Ending.Usage) ↔ (request (map string_bytes words.now) ≡ None) }
    ensures fault { EndsIn (asked_in (request (map string_bytes words.now))) result
        (H.faults shelf.old) (H.faults shelf.new) (H.files shelf.old) }
    ensures unwritten { result ≡ Ending.Unwritten → Rose (O.faults out.old) (O.faults out.new) }
    ensures ends { IfSome (H.files shelf.old) (λ files.
        EndsAs result (outcome (map string_bytes words.now) files)) }
    ensures answers { IfSome (H.files shelf.old) (λ files. Answers (ending_status result)
        (outcome (map string_bytes words.now) files) (O.written out.old) (O.written out.new)) }
    ensures sampled { IfSome (sampled_in (request (map string_bytes words.now))) (λ asked. Answers
        (ending_status result) (Some (sample_answer asked))
        (O.written out.old) (O.written out.new)) }
    ensures shows { ending_status result ≡ 0 → IfSome (H.files shelf.old) (λ files.
        Shows (request (map string_bytes words.now)) files) }
    ensures unchanged { KeepsOutput result (O.written out.old) (O.written out.new) }
{
    let Some(request) = request_of(words) else {
        return Ending::Usage;
    };
    match answer(alloc, shelf, &request) {
        Ok(answer) => put(out, &answer),
        Err(Stop::Refused(refusal)) => Ending::Refused(refusal),
        Err(Stop::Unread { place, role }) => Ending::Unread { place, role },
        Err(Stop::Memory) => Ending::Memory,
    }
}

/// Writes the text of an answer.
fn put<O: Sink>(out: &mut O, answer: &Answer) -> Ending
    ensures answers { Answers (ending_status result) (Some (Ok answer.now))
        (O.written out.old) (O.written out.new) }
    ensures ends { EndsAs result (Some (Ok answer.now)) }
    ensures unwritten { result ≡ Ending.Unwritten → Rose (O.faults out.old) (O.faults out.new) }
    ensures done { ending_status result ≡ 0 → answer.now.rejected ≡ false }
    ensures cause { IsOfWriting result }
{
    match write_all(out, answer.text.bytes()).end {
        End::Whole => Ending::Printed {
            rejected: answer.rejected,
        },
        End::Failed => Ending::Unwritten,
        End::Memory => Ending::Memory,
    }
}
