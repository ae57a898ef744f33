//! The value of each flag that can be bad, in the order in which they are read.

ghost use Rattle.std.specs.Prelude.{◌≡◌};
ghost use Rattle.rx_base.specs.Results.{Gives};
ghost use Rattle.rx_wrap.specs.Addresses.{address_of};
ghost use Rattle.rx_wrap.specs.Choices.{strategy_named, truth_named, unproxied_named};
ghost use Rattle.rx_wrap.specs.Numbers.{seconds_in};
ghost use Rattle.rx_wrap.specs.Values.{counting, or_fault, pairs_named, value_in, values_in};
ghost use Rattle.rx_wrap.specs.declared.flags.Flag.TheVariants.{ServerAddress, ExecStrategy, ExecTimeout, WithoutProxy};
ghost use Rattle.rx_wrap.specs.declared.usage_fault.UsageFault.TheVariants.{NoMemory};

use crate::addresses::{Address, address_of};
use crate::choices::{kind_of, strategy_named, truth_named, unproxied_named};
use crate::commas::pairs_in;
use crate::flags::Flag;
use crate::numbers::seconds_in;
use crate::settings::{Setting, Settings};
use crate::usage_fault::UsageFault;
use rx_base::{Items, Text};
use rx_world::{Kind, Pair, Strategy};
use std::alloc::Global;

/// What the settings say, but for lists and the root.
#[derive(Debug, Drop)]
pub(crate) struct Values {
    pub(crate) address: Address,
    pub(crate) strategy: Strategy,
    pub(crate) kind: Kind,
    pub(crate) platform: Items<Pair>,
    pub(crate) accept_cached: bool,
    pub(crate) timeout_seconds: u32,
    pub(crate) shuts_down: bool,
    pub(crate) relative_paths: bool,
    pub(crate) in_place: bool,
    pub(crate) without_proxy: bool,
    pub(crate) verbose: bool,
}

/// A flag's setting that counts, or its default, which stands nowhere.
pub(crate) fn counting<'a>(settings: &Settings<'a>, flag: Flag) -> Setting<'a>
    ensures { result ≡ counting flag settings.now }
{
    if let Some(given) = settings.setting(flag) {
        return Setting {
            flag: given.flag,
            value: given.value,
            place: given.place,
        };
    }
    Setting {
        flag,
        value: flag.default_text(),
        place: "",
    }
}

/// A value, or the fault of what gave it.
fn or_fault<T: Drop>(alloc: Global, place: &str, value: Option<T>) -> Result<T, UsageFault>
    ensures { Gives NoMemory (λ value. value) result (or_fault place.now value) }
{
    match value {
        Some(value) => Ok(value),
        None => Err(UsageFault::Word(Text::copy_of(alloc, place)?)),
    }
}

fn address_in(alloc: Global, settings: &Settings<'_>) -> Result<Address, UsageFault>
    ensures { Gives NoMemory (λ address. address) result
        (value_in address_of ServerAddress settings.now) }
{
    let given = counting(settings, Flag::ServerAddress);
    let address = address_of(alloc, given.value)?;
    or_fault(alloc, given.place, address)
}

fn strategy_in(alloc: Global, settings: &Settings<'_>) -> Result<Strategy, UsageFault>
    ensures { Gives NoMemory (λ strategy. strategy) result
        (value_in strategy_named ExecStrategy settings.now) }
{
    let given = counting(settings, Flag::ExecStrategy);
    or_fault(alloc, given.place, strategy_named(given.value))
}

fn pairs_of(alloc: Global, settings: &Settings<'_>, flag: Flag) -> Result<Items<Pair>, UsageFault>
    ensures { Gives NoMemory (λ pairs. pairs) result (value_in pairs_named flag settings.now) }
{
    let given = counting(settings, flag);
    let pairs = pairs_in(alloc, given.value)?;
    or_fault(alloc, given.place, pairs)
}

fn truth_in(alloc: Global, settings: &Settings<'_>, flag: Flag) -> Result<bool, UsageFault>
    ensures { Gives NoMemory (λ truth. truth) result (value_in truth_named flag settings.now) }
{
    let given = counting(settings, flag);
    or_fault(alloc, given.place, truth_named(given.value))
}

fn unproxied_in(alloc: Global, settings: &Settings<'_>) -> Result<bool, UsageFault>
    ensures { Gives NoMemory (λ truth. truth) result
        (value_in unproxied_named WithoutProxy settings.now) }
{
    let given = counting(settings, Flag::WithoutProxy);
    or_fault(alloc, given.place, unproxied_named(given.value))
}

fn seconds_of(alloc: Global, settings: &Settings<'_>) -> Result<u32, UsageFault>
    ensures { Gives NoMemory (λ seconds. seconds) result
        (value_in seconds_in ExecTimeout settings.now) }
{
    let given = counting(settings, Flag::ExecTimeout);
    or_fault(alloc, given.place, seconds_in(given.value))
}

/// What the settings say. The fault is that of the first bad value in the order of the flags' table.
#[tactic(auto, unfolding(crate::specs::Values::values_in))]
pub(crate) fn values_in(alloc: Global, settings: &Settings<'_>) -> Result<Values, UsageFault>
    ensures { Gives NoMemory (λ values. values) result (values_in settings.now) }
{
    let address = address_in(alloc, settings)?;
    let strategy = strategy_in(alloc, settings)?;
    let labels = pairs_of(alloc, settings, Flag::Labels)?;
    let platform = pairs_of(alloc, settings, Flag::Platform)?;
    let accept_cached = truth_in(alloc, settings, Flag::AcceptCached)?;
    let timeout_seconds = seconds_of(alloc, settings)?;
    let shuts_down = truth_in(alloc, settings, Flag::ShutdownProxy)?;
    let relative_paths = truth_in(alloc, settings, Flag::RelativePaths)?;
    let in_place = truth_in(alloc, settings, Flag::InPlace)?;
    let without_proxy = unproxied_in(alloc, settings)?;
    let verbose = truth_in(alloc, settings, Flag::Verbose)?;
    Ok(Values {
        address,
        strategy,
        kind: kind_of(labels.as_slice()),
        platform,
        accept_cached,
        timeout_seconds,
        shuts_down,
        relative_paths,
        in_place,
        without_proxy,
        verbose,
    })
}
