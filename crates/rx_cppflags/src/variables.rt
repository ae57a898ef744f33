//! The environment variables that name directories for includes.

ghost use Rattle.std.specs.Prelude.{◌≡◌, option_map};
ghost use Rattle.rx_cppflags.specs.Variables.{first_variable, is_variable};

use rx_base::Text;
use rx_world::Pair;

/// The first name in an environment that is one of these.
pub(crate) fn first_variable(environment: &[Pair]) -> Option<&Text>
    ensures { option_map (λ name. name.now) result ≡ first_variable environment.now }
{
    for pair in environment {
        if is_variable(&pair.name) {
            return Some(&pair.name);
        }
    }
    None
}

/// Whether a variable names directories for includes (GCC, "Environment Variables Affecting GCC").
fn is_variable(name: &Text) -> bool
    ensures { result ≡ is_variable name.now }
{
    matches!(
        name.as_str(),
        "CPATH" | "C_INCLUDE_PATH" | "CPLUS_INCLUDE_PATH" | "OBJC_INCLUDE_PATH"
    )
}
