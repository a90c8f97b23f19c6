ghost use Rattle.std.specs.Prelude.{◌≡◌, ◌++◌, OnOk, IfOk};
ghost use Rattle.std.specs.List.{flat_map};
ghost use Rattle.ldp_wkt2.specs.Values.{IsCrs, value_of};
ghost use Rattle.ldp_wkt2.specs.Profile.{row_of, parameters_of};
ghost use Rattle.ldp_wkt2.specs.Lines.{number_text, parameter_text, crs_text};

use crate::crs::Crs;
use crate::line::{end, method_parts, parts_before, parts_behind, push_parts, start};
use crate::method::parameters_of;
use crate::parameter::Parameter;
use crate::value::value_of;
use ldp_decimal::{Memory, Text, write_trimmed};
use ldp_design::range_of;
use std::alloc::Global;

/// The value of a parameter as a text.
fn number(alloc: Global, crs: &Crs, parameter: Parameter) -> Result<Text, Memory>
    requires { IsCrs crs.now }
    ensures { let value = value_of (row_of parameter).key crs.now in
        IfOk result (λ text. text ≡ number_text crs.now.kind parameter value) }
{
    let key = parameter.key();
    write_trimmed(alloc, value_of(key, crs), range_of(key, crs.kind).places)
}

fn push_parameter(
    alloc: Global,
    text: &mut Text,
    crs: &Crs,
    parameter: Parameter,
) -> Result<(), Memory>
    requires { IsCrs crs.now }
    ensures { OnOk result (text.new ≡ text.old ++ parameter_text crs.now parameter) }
{
    push_parts(text, &parts_before(parameter))?;
    text.push(number(alloc, crs, parameter)?.bytes())?;
    push_parts(text, &parts_behind(parameter))
}

fn push_parameters(alloc: Global, text: &mut Text, crs: &Crs) -> Result<(), Memory>
    requires { IsCrs crs.now }
    ensures { OnOk result
        (text.new ≡ text.old ++ flat_map (parameter_text crs.now) (parameters_of crs.now.kind)) }
{
    for parameter in parameters_of(crs.kind) {
        push_parameter(alloc, text, crs, *parameter)?;
    }
    Ok(())
}

/// The line of a coordinate reference system.
#[tactic(auto, unfolding(crate::specs::Lines::crs_text))]
pub fn write_crs(alloc: Global, crs: &Crs) -> Result<Text, Memory>
    requires { IsCrs crs.now }
    ensures { IfOk result (λ text. text ≡ crs_text crs.now) }
{
    let mut text = Text::new(alloc);
    text.push(start())?;
    push_parts(&mut text, &method_parts(crs.kind))?;
    push_parameters(alloc, &mut text, crs)?;
    text.push(end())?;
    Ok(text)
}
