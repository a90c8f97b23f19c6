ghost use Rattle.std.specs.Prelude.{◌≡◌, IfErr, IfSome, map, string_bytes};
ghost use Rattle.ldp_cli.specs.Files.{ServesFrom, Gives, StopsIn};
ghost use Rattle.ldp_cli.specs.Table.{TableRequest, form_of, table_request, table_files};
ghost use Rattle.ldp_cli.specs.Table.{table_answer};

use crate::certificate::{JobWords, take_certificate};
use crate::problem_files::ProblemWords;
use crate::stop::Stop;
use ldp_answer::{Answer, TableForm, table_over};
use ldp_io::Shelf;
use std::alloc::Global;
use std::marker::Model;

/// The words after `table`.
#[derive(Drop)]
pub struct TableWords<'a> {
    job: JobWords<'a>,
    form: TableForm,
}

impl<'a> Model for TableWords<'a> {
    ghost Value = { TableRequest };

    ghost view = { λ words. record { job = words.job; form = words.form } };
}

/// The words after `table`, if they are in one of its forms.
pub fn table_words(words: &[String]) -> Option<TableWords<'_>>
    ensures { result ≡ table_request (map string_bytes words.now) }
{
    match words {
        [zone, heights, grids, job, options @ ..] => Some(TableWords {
            form: form_of(options)?,
            job: JobWords {
                problem: ProblemWords {
                    zone: zone.as_str(),
                    heights: heights.as_str(),
                    grids: grids.as_str(),
                },
                job: job.as_str(),
            },
        }),
        _ => None,
    }
}

/// The form that is asked for behind the names of the files.
fn form_of(options: &[String]) -> Option<TableForm>
    ensures { result ≡ form_of (map string_bytes options.now) }
{
    match options {
        [] => Some(TableForm::Lines),
        [option] if option.as_str() == "--json" => Some(TableForm::Json),
        _ => None,
    }
}

/// The distortions of a job's design at the cells.
pub fn table<H: Shelf>(alloc: Global, shelf: &mut H, words: &TableWords<'_>) -> Result<Answer, Stop>
    requires { ServesFrom (H.serves shelf.old) 0 (table_files words.now) }
    ensures told { IfSome (H.files shelf.old) (λ files.
        Gives result (table_answer words.now files)) }
    ensures stops { IfErr result (λ stop. StopsIn (table_files words.now) stop
        (H.faults shelf.old) (H.faults shelf.new) (H.files shelf.old)) }
{
    let read = take_certificate(alloc, shelf, &words.job)?;
    let form = words.form;
    Ok(table_over(
        alloc,
        form,
        &read.cells,
        &read.grids,
        &read.names,
        &read.job,
    )?)
}
