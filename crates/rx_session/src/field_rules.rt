//! The rule of each field that is no path, as a test.

ghost use Rattle.std.specs.Prelude.{◌≡◌, IfOk, map};
ghost use Rattle.std.specs.List.{list_all};
ghost use Rattle.std.specs.Ordering.{nat_cmp};
ghost use Rattle.std.specs.Cmp.Lexicographic.{slice_cmp};
ghost use Rattle.rx_base.specs.SortedPaths.{sorted_once};
ghost use Rattle.rx_session.specs.Rules.{are_distinct, environment_holds, first_holds, is_within, lacks, names_of, platform_holds, property_holds, variable_holds, words_hold};

use rx_base::{NoMemory, Text};
use rx_world::Pair;
use std::alloc::Global;

/// Whether a byte isn't in a text.
fn lacks(byte: u8, text: &Text) -> bool
    ensures { result ≡ lacks byte text.now }
{
    !text.as_str().as_bytes().contains(&byte)
}

/// Whether there is a first word that isn't empty.
fn first_holds(words: &[Text]) -> bool
    ensures { result ≡ first_holds words.now }
{
    match words.first() {
        Some(word) => !word.is_empty(),
        None => false,
    }
}

/// 3: one word at least, the first not empty.
#[tactic(auto, unfolding(crate::specs::Rules::words_hold))]
pub(crate) fn words_hold(words: &[Text]) -> bool
    ensures { result ≡ words_hold words.now }
{
    first_holds(words) && all_lack_zero(words)
}

/// Whether no text has a zero byte.
fn all_lack_zero(texts: &[Text]) -> bool
    ensures { result ≡ list_all (lacks 0) texts.now }
{
    texts.iter().all(|text| lacks(0, text))
}

/// The name of an environment variable, with its value.
#[tactic(auto, unfolding(crate::specs::Rules::variable_holds))]
fn variable_holds(pair: &Pair) -> bool
    ensures { result ≡ variable_holds pair.now }
{
    !pair.name.is_empty() && lacks(b'=', &pair.name) && property_holds(pair)
}

/// A pair without zero bytes.
#[tactic(auto, unfolding(crate::specs::Rules::property_holds))]
fn property_holds(pair: &Pair) -> bool
    ensures { result ≡ property_holds pair.now }
{
    lacks(0, &pair.name) && lacks(0, &pair.value)
}

/// The names of pairs.
fn names_of(alloc: Global, pairs: &[Pair]) -> Result<Vec<&Text>, NoMemory>
    ensures { IfOk result (λ names. map (λ name. name.now) names.items ≡ names_of pairs.now) }
{
    let mut names = Vec::with_capacity(alloc, pairs.len())?;
    for pair in pairs {
        names.push(&pair.name)?;
    }
    Ok(names)
}

/// The texts in the order of their bytes, each once.
fn sort_once(texts: Vec<&Text>) -> Result<Vec<&Text>, NoMemory>
    ensures { IfOk result (λ once. map (λ text. text.now) once.items
        ≡ sorted_once (slice_cmp nat_cmp) (map (λ text. text.now) texts.entry.items)) }
{
    let mut texts = texts;
    texts.sort()?;
    texts.dedup();
    Ok(texts)
}

/// Whether no two texts are equal.
fn are_distinct(texts: Vec<&Text>) -> Result<bool, NoMemory>
    ensures { IfOk result
        (λ distinct. distinct ≡ are_distinct (map (λ text. text.now) texts.entry.items)) }
{
    let count = texts.as_slice().len();
    let once = sort_once(texts)?;
    Ok(once.as_slice().len() == count)
}

/// 4: distinct names, none empty or with `=`.
#[tactic(auto, unfolding(crate::specs::Rules::environment_holds))]
pub(crate) fn environment_holds(alloc: Global, pairs: &[Pair]) -> Result<bool, NoMemory>
    ensures { IfOk result (λ holds. holds ≡ environment_holds pairs.now) }
{
    if !variables_hold(pairs) {
        return Ok(false);
    }
    are_distinct(names_of(alloc, pairs)?)
}

fn variables_hold(pairs: &[Pair]) -> bool
    ensures { result ≡ list_all variable_holds pairs.now }
{
    pairs.iter().all(variable_holds)
}

/// 6, 7, 12, 13, 14: a number from one to another.
pub(crate) fn is_within(low: u64, high: u64, number: u64) -> bool
    ensures { result ≡ is_within low high number }
{
    low <= number && number <= high
}

/// 11: any texts.
#[tactic(auto, unfolding(crate::specs::Rules::platform_holds))]
pub(crate) fn platform_holds(pairs: &[Pair]) -> bool
    ensures { result ≡ platform_holds pairs.now }
{
    pairs.iter().all(property_holds)
}
