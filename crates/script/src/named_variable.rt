//! Variables as the file has them.
ghost use Rattle.std.specs.Prelude.{◌≡◌, map, length, IfOk};
ghost use Rattle.script.specs.Entries.{VariableEntry, variable_view};

use arrayvec::ArrayVec;
use model::App;
use std::alloc::{AllocError, Global};

/// A variable: its name, and what it is at reset.
#[derive(Drop)]
pub(crate) struct NamedVariable<'a> {
    pub(crate) name: &'a str,
    pub(crate) initial: u32,
}

// What an array of variables has in a place that is still free.
impl Default for NamedVariable<'_> {
    fn default() -> Self {
        NamedVariable {
            name: "",
            initial: 0,
        }
    }
}

/// The variables of a document, in their order.
pub(crate) type Variables<'a> = ArrayVec<NamedVariable<'a>, { App::MOST_VARIABLES }>;

/// What each of these variables is at reset.
pub(crate) fn initial_values(
    alloc: Global,
    variables: &[NamedVariable<'_>],
) -> Result<Vec<u32>, AllocError>
    ensures values { IfOk result (λ v. v.items ≡ map (λ (x : VariableEntry). x.initial) (map variable_view variables.now)) }
    ensures count { IfOk result (λ v. length v.items ≡ length variables.now) }
{
    let mut values = Vec::new(alloc);
    for variable in variables {
        values.push(variable.initial)?;
    }
    Ok(values)
}
