//! Values that are one of several words.

ghost use Rattle.std.specs.Prelude.{◌≡◌};
ghost use Rattle.rx_wrap.specs.Choices.{is_compile, kind_named, kind_of, strategy_named, truth_named, unproxied_named, with_label};

use rx_world::{Kind, Pair, Strategy};

/// The strategy of this name.
#[tactic(auto, unfolding(crate::specs::Choices::strategy_named))]
pub(crate) fn strategy_named(name: &str) -> Option<Strategy>
    ensures { result ≡ strategy_named name.now }
{
    match name {
        "local" => Some(Strategy::Local),
        "remote" => Some(Strategy::Remote),
        "remote_local_fallback" => Some(Strategy::RemoteLocalFallback),
        "racing" => Some(Strategy::Racing),
        _ => None,
    }
}

/// What a word of a switch says.
#[tactic(auto, unfolding(crate::specs::Choices::truth_named))]
pub(crate) fn truth_named(word: &str) -> Option<bool>
    ensures { result ≡ truth_named word.now }
{
    match word {
        "1" | "t" | "T" | "true" | "TRUE" | "True" => Some(true),
        "0" | "f" | "F" | "false" | "FALSE" | "False" => Some(false),
        _ => None,
    }
}

/// Whether a command runs in place where there is no proxy.
#[tactic(auto, unfolding(crate::specs::Choices::unproxied_named))]
pub(crate) fn unproxied_named(word: &str) -> Option<bool>
    ensures { result ≡ unproxied_named word.now }
{
    match word {
        "refuse" => Some(false),
        "in_place" => Some(true),
        _ => None,
    }
}

/// Whether it is a compile step.
pub(crate) fn is_compile(kind: Kind) -> bool
    ensures { result ≡ is_compile kind }
{
    match kind {
        Kind::Compile => true,
        Kind::Tool => false,
    }
}

/// The kind that a type names.
fn kind_named(word: &str) -> Kind
    ensures { result ≡ kind_named word.now }
{
    match word {
        "compile" => Kind::Compile,
        _ => Kind::Tool,
    }
}

/// The kind after one more label.
fn with_label(kind: Kind, label: &Pair) -> Kind
    ensures { result ≡ with_label kind label.now }
{
    match label.name.as_str() {
        "type" => kind_named(label.value.as_str()),
        _ => kind,
    }
}

/// What the last `type` of labels says; a tool where there is none.
pub(crate) fn kind_of(labels: &[Pair]) -> Kind
    ensures { result ≡ kind_of labels.now }
{
    let mut kind = Kind::Tool;
    for label in labels {
        kind = with_label(kind, label);
    }
    kind
}
