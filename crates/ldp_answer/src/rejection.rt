ghost use Rattle.std.specs.Prelude.{◌≡◌, ◌++◌, IfOk, OnOk, decimal};
ghost use Rattle.std.specs.Fmt.{signed_decimal};
ghost use Rattle.ldp_answer.specs.Rejection.{role_text, two_values, reason_text, rejection};

use crate::answer::Answer;
use itoa::Buffer;
use ldp_check::Reason;
use ldp_decimal::{Memory, Text};
use ldp_job::Role;
use std::alloc::Global;

/// The answer for a job that is not accepted.
pub fn rejection(alloc: Global, reason: &Reason) -> Result<Answer, Memory>
    ensures { IfOk result (λ answer. answer ≡ rejection reason.now) }
{
    let mut text = Text::new(alloc);
    text.push(b"rejected ")?;
    push_reason(&mut text, reason)?;
    text.push(b"\n")?;
    Ok(Answer {
        rejected: true,
        text,
    })
}

fn push_reason(text: &mut Text, reason: &Reason) -> Result<(), Memory>
    ensures { OnOk result (text.new ≡ text.old ++ reason_text reason.now) }
{
    match *reason {
        Reason::OtherInput { which } => push_two(text, b"OtherInput ", role_text(which)),
        Reason::NotAdmissible => text.push(b"NotAdmissible"),
        Reason::DesignUnusable { cell } => push_count(text, b"DesignUnusable ", cell),
        Reason::OverDiffers { printed, actual } => {
            push_counts(text, b"OverDiffers ", printed, actual)
        }
        Reason::WorstDiffers { printed, actual } => {
            push_units(text, b"WorstDiffers ", printed)?;
            push_units(text, b" ", actual)
        }
        Reason::ReportDiffers { line } => push_count(text, b"ReportDiffers ", line),
        Reason::TreeOutOfPlace { line } => push_count(text, b"TreeOutOfPlace ", line),
        Reason::BadSplit { line } => push_count(text, b"BadSplit ", line),
        Reason::NoSuchCell { line } => push_count(text, b"NoSuchCell ", line),
        Reason::LeafOpen { line, low } => {
            push_count(text, b"LeafOpen ", line)?;
            push_units(text, b" ", low)
        }
        Reason::ShareOpen { line, over, low } => {
            push_count(text, b"ShareOpen ", line)?;
            push_count(text, b" ", over)?;
            push_units(text, b" ", low)
        }
        Reason::NotUnusable { line } => push_count(text, b"NotUnusable ", line),
        Reason::FamilyMissing { family } => {
            push_count(text, b"FamilyMissing ", u32::from(family))
        }
    }
}

fn role_text(which: Role) -> &'static [u8]
    ensures { result.now ≡ role_text which }
{
    match which {
        Role::Zone => b"Zone",
        Role::Heights => b"Heights",
        Role::Grids => b"Grids",
    }
}

/// A piece, and after it another one.
fn push_two(text: &mut Text, first: &[u8], second: &[u8]) -> Result<(), Memory>
    ensures { OnOk result (text.new ≡ text.old ++ (first.now ++ second.now)) }
{
    text.push(first)?;
    text.push(second)
}

/// A piece, and after it a number or a count.
fn push_count(text: &mut Text, before: &[u8], count: u32) -> Result<(), Memory>
    ensures { OnOk result (text.new ≡ text.old ++ (before.now ++ decimal count)) }
{
    push_two(text, before, Buffer::new().format(count).as_bytes())
}

/// A piece, and after it two numbers or counts.
fn push_counts(text: &mut Text, before: &[u8], first: u32, second: u32) -> Result<(), Memory>
    ensures { OnOk result (text.new
        ≡ text.old ++ (before.now ++ two_values (decimal first) (decimal second))) }
{
    push_count(text, before, first)?;
    push_count(text, b" ", second)
}

/// A piece, and after it a number of units of 10^-15.
fn push_units(text: &mut Text, before: &[u8], units: i128) -> Result<(), Memory>
    ensures { OnOk result (text.new ≡ text.old ++ (before.now ++ signed_decimal units)) }
{
    push_two(text, before, Buffer::new().format(units).as_bytes())
}
