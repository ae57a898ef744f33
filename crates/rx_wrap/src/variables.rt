//! The variables that a command gets.

ghost use Rattle.std.specs.Prelude.{◌≡◌, IfOk, option_copied};
ghost use Rattle.rx_base.specs.Texts.{texts};
ghost use Rattle.rx_wrap.specs.Variables.{environment_of, names_directory, own_directory, variable_named, variables_named};

use crate::choices::is_compile;
use rx_base::{Items, NoMemory, Text, TryClone};
use rx_world::{Kind, Pair};
use std::alloc::Global;

/// The first variable of a name.
fn variable_named<'a>(variables: &'a [Pair], name: &str) -> Option<&'a Pair>
    ensures { option_copied result ≡ variable_named variables.now name.now }
{
    for variable in variables {
        if variable.name.as_str() == name {
            return Some(variable);
        }
    }
    None
}

/// The variables of these names, as far as they are set.
fn variables_named(
    alloc: Global,
    variables: &[Pair],
    names: &[&str],
) -> Result<Items<Pair>, NoMemory>
    ensures { IfOk result (λ found. found ≡ variables_named variables.now (texts names.now)) }
{
    let mut found = Items::new(alloc);
    for name in names {
        if let Some(variable) = variable_named(variables, name) {
            found.push(variable.try_clone(alloc)?)?;
        }
    }
    Ok(found)
}

/// Whether one of the names is PWD.
fn names_directory(names: &[&str]) -> bool
    ensures { result ≡ names_directory (texts names.now) }
{
    for name in names {
        if *name == "PWD" {
            return true;
        }
    }
    false
}

/// The variable by which compilers name the working directory in debug information.
fn own_directory(alloc: Global) -> Result<Pair, NoMemory>
    ensures { IfOk result (λ variable. variable ≡ own_directory) }
{
    Ok(Pair {
        name: Text::copy_of(alloc, "PWD")?,
        value: Text::copy_of(alloc, "/proc/self/cwd")?,
    })
}

/// The variables that the allowlist names. A compile step gets `PWD=/proc/self/cwd` too, unless the
/// list names PWD itself.
pub(crate) fn environment_of(
    alloc: Global,
    kind: Kind,
    variables: &[Pair],
    names: &[&str],
) -> Result<Items<Pair>, NoMemory>
    ensures { IfOk result (λ found. found
        ≡ environment_of kind variables.now (texts names.now)) }
{
    let mut found = variables_named(alloc, variables, names)?;
    if is_compile(kind) && !names_directory(names) {
        found.push(own_directory(alloc)?)?;
        return Ok(found);
    }
    Ok(found)
}
