ghost use Rattle.std.specs.Prelude.{◌≡◌};
ghost use Rattle.ldp_check.specs.Inputs.{other_input, other_name};

use ldp_job::{Job, Names, Role};

/// The first file whose hash in a certificate is not the one in `names`; None where each is, and
/// where the certificate names no files.
pub fn other_input(names: &Names, job: &Job) -> Option<Role>
    ensures { result ≡ other_input names.now job.now.names }
{
    match &job.names {
        None => None,
        Some(named) => other_name(names, named),
    }
}

fn other_name(present: &Names, named: &Names) -> Option<Role>
    ensures { result ≡ other_name present.now named.now }
{
    if present.zone != named.zone {
        Some(Role::Zone)
    } else if present.heights != named.heights {
        Some(Role::Heights)
    } else if present.grids != named.grids {
        Some(Role::Grids)
    } else {
        None
    }
}
