//! The rule of the outputs among the other paths.

ghost use Rattle.std.specs.Prelude.{◌≡◌, IfOk};
ghost use Rattle.std.specs.List.{list_all, list_any};
ghost use Rattle.rx_base.specs.Paths.{is_below};
ghost use Rattle.rx_base.specs.SortedPaths.{AreSorted};
ghost use Rattle.rx_session.specs.Rules.{outputs_stand, some_above};

use rx_base::{Items, NoMemory, RelPath, first_above, sort_paths};

/// Whether one of the outputs, which are sorted, is above a path.
#[tactic(auto, using(crate::proofs::OutputLemmas::found_any))]
fn is_below_one(path: &RelPath, outputs: &[RelPath]) -> bool
    requires { AreSorted outputs.now }
    ensures { result ≡ list_any (λ output. is_below path.now output) outputs.now }
{
    first_above(outputs, path).is_some()
}

/// Whether one of the outputs, which are sorted, is above one of the paths. It takes a few binary
/// searches for each path.
fn some_above(outputs: &[RelPath], paths: &[RelPath]) -> bool
    requires { AreSorted outputs.now }
    ensures { result ≡ some_above outputs.now paths.now }
{
    for path in paths {
        if is_below_one(path, outputs) {
            return true;
        }
    }
    false
}

fn all_below(paths: &[RelPath], directory: &RelPath) -> bool
    ensures { result ≡ list_all (λ path. is_below path directory.now) paths.now }
{
    paths.iter().all(|path| path.is_below(directory))
}

/// 10: below the working directory, none above another or above a declared input.
#[tactic(auto, unfolding(crate::specs::Rules::outputs_stand))]
pub(crate) fn outputs_stand(
    directory: &RelPath,
    inputs: &[RelPath],
    toolchain_inputs: &[RelPath],
    outputs: Items<RelPath>,
) -> Result<bool, NoMemory>
    ensures { IfOk result (λ stand. stand
        ≡ outputs_stand directory.now inputs.now toolchain_inputs.now outputs) }
{
    if !all_below(outputs.as_slice(), directory) {
        return Ok(false);
    }
    let sorted = sort_paths(outputs)?;
    let outputs = sorted.as_slice();
    if some_above(outputs, outputs) {
        return Ok(false);
    }
    if some_above(outputs, inputs) {
        return Ok(false);
    }
    Ok(!some_above(outputs, toolchain_inputs))
}
