ghost use Rattle.std.specs.Prelude.{◌≡◌, ◌≢◌, [], map, is_none, find, codes, IfOk, IfErr};
ghost use Rattle.std.specs.List.{flat_map};
ghost use Rattle.std.specs.Option.{option_map, option_or, option_to_list};
ghost use Rattle.session_core.specs.Config as specs;
ghost use Rattle.session_core.specs.Places.{AreFirst};
ghost use Rattle.session_core.specs.Presets as presets;
ghost use Rattle.session_core.specs.Shown.{told};

use crate::ConfigRefusal;
use crate::allowed::is_allowed;
use crate::places::{places_of, value_at};
use crate::shown::{REPLY_LIMIT, Shown, is_too_large, pairs_of};
use cn_base::{Copied, List, OutOfMemory, Text};
use cn_types::Pair;
use request_messages::ConfigOperation;
use response_messages::KeyValue;
use std::alloc::Global;

/// Whether the pair has a value that its key may take.
fn may_set(alloc: Global, pair: &KeyValue) -> Result<bool, OutOfMemory>
    ensures { IfOk result (λ may. may ≡ specs.may_set pair.now) }
{
    match &pair.value {
        Some(value) => is_allowed(alloc, pair.key.as_str(), value.as_str()),
        None => Ok(false),
    }
}

/// Refuses the first pair that may not be set.
fn refuse_setting(alloc: Global, new: &[KeyValue]) -> Result<(), ConfigRefusal>
    ensures ok { IfOk result (λ _. specs.setting new.now ≡ Ok []) }
    ensures refused { IfErr result (λ why. why ≢ ConfigRefusal.OutOfMemory → specs.setting new.now ≡ Err why) }
{
    for pair in new {
        if !may_set(alloc, pair)? {
            return Err(ConfigRefusal::BadSetting {
                key: pair.key.copy(alloc)?,
            });
        }
    }
    Ok(())
}

/// The pairs of these keys, without a value where the settings have none.
fn pairs_at<'a>(
    alloc: Global,
    settings: &'a [Pair],
    keys: &'a [Text],
) -> Result<Vec<Shown<'a>>, OutOfMemory>
    ensures { IfOk result (λ shown. map told shown.items ≡ map (specs.pair_at settings.now) keys.now) }
{
    let places = places_of(alloc, settings)?;
    let mut shown = Vec::new(alloc);
    for key in keys {
        let key = key.as_str();
        let value = value_at(settings, &places, key);
        shown.push(Shown { key, value })?;
    }
    Ok(shown)
}

/// The first pair without a value.
fn first_missing<'a>(shown: &[Shown<'a>]) -> Option<&'a str>
    ensures { option_map (λ key. key.now) result
        ≡ option_map (λ pair. pair.key) (find (λ pair. is_none pair.value) (map told shown.now)) }
{
    for pair in shown {
        if pair.value.is_none() {
            return Some(pair.key);
        }
    }
    None
}

/// The pairs of these keys, or a refusal for the first one without a value.
fn getting<'a>(
    alloc: Global,
    settings: &'a [Pair],
    keys: &'a [Text],
) -> Result<Vec<Shown<'a>>, ConfigRefusal>
    ensures ok { IfOk result (λ shown. specs.getting settings.now keys.now ≡ Ok (map told shown.items)) }
    ensures refused { IfErr result (λ why. why ≢ ConfigRefusal.OutOfMemory → specs.getting settings.now keys.now ≡ Err why) }
{
    let shown = pairs_at(alloc, settings, keys)?;
    match first_missing(&shown) {
        Some(key) => Err(ConfigRefusal::NotFound {
            key: Text::of(alloc, key)?,
        }),
        None => Ok(shown),
    }
}

/// The pairs of these keys, with the values given for those without one.
fn pairs_or<'a>(
    alloc: Global,
    settings: &'a [Pair],
    defaults: &'a [KeyValue],
) -> Result<Vec<Shown<'a>>, OutOfMemory>
    ensures { IfOk result (λ shown. map told shown.items ≡ map (specs.pair_or settings.now) defaults.now) }
{
    let places = places_of(alloc, settings)?;
    let mut shown = Vec::new(alloc);
    for pair in defaults {
        let value = value_or(value_at(settings, &places, pair.key.as_str()), pair);
        shown.push(Shown {
            key: pair.key.as_str(),
            value,
        })?;
    }
    Ok(shown)
}

/// The value, or else that of the pair.
fn value_or<'a>(value: Option<&'a str>, pair: &'a KeyValue) -> Option<&'a str>
    ensures { option_map (λ v. v.now) result ≡ option_or (option_map (λ v. v.now) value.entry) pair.now.value }
{
    match value {
        Some(value) => Some(value),
        None => match &pair.value {
            Some(default) => Some(default.as_str()),
            None => None,
        },
    }
}

/// The pairs with a value whose keys begin with the prefix, with the prefix taken off.
fn pairs_under<'a>(
    alloc: Global,
    settings: &'a [Pair],
    prefix: &str,
) -> Result<Vec<Shown<'a>>, OutOfMemory>
    ensures { IfOk result (λ shown. map told shown.items ≡ flat_map (specs.under prefix.now) settings.now) }
{
    let mut shown = Vec::new(alloc);
    for pair in settings {
        if let Some(pair) = under(pair, prefix) {
            shown.push(pair)?;
        }
    }
    Ok(shown)
}

/// The pair without the prefix of its key, where it has the prefix and a value.
fn under<'a>(pair: &'a Pair, prefix: &str) -> Option<Shown<'a>>
    ensures { option_to_list (option_map told result) ≡ specs.under prefix.now pair.now }
{
    let Some(value) = &pair.value else {
        return None;
    };
    let rest = pair.key.as_str().strip_prefix(prefix)?;
    Some(Shown {
        key: rest,
        value: Some(value.as_str()),
    })
}

/// Each key with `true`.
fn modifiable(alloc: Global, keys: &[Text]) -> Result<Vec<Shown<'_>>, OutOfMemory>
    ensures { IfOk result (λ shown. map told shown.items ≡ map (λ key. presets.pair key (codes "true")) keys.now) }
{
    let mut shown = Vec::new(alloc);
    for key in keys {
        shown.push(Shown {
            key: key.as_str(),
            value: Some("true"),
        })?;
    }
    Ok(shown)
}

/// The pairs that an operation asks for.
fn asked_of<'a>(
    alloc: Global,
    settings: &'a [Pair],
    operation: &'a ConfigOperation,
) -> Result<Vec<Shown<'a>>, ConfigRefusal>
    ensures ok { IfOk result (λ shown. specs.asked_of settings.now operation.now ≡ Ok (map told shown.items)) }
    ensures refused { IfErr result (λ why. why ≢ ConfigRefusal.OutOfMemory → specs.asked_of settings.now operation.now ≡ Err why) }
{
    match operation {
        ConfigOperation::Set { pairs } => {
            refuse_setting(alloc, pairs.as_slice())?;
            Ok(Vec::new(alloc))
        }
        ConfigOperation::Get { keys } => getting(alloc, settings, keys.as_slice()),
        ConfigOperation::GetWithDefault { pairs } => {
            Ok(pairs_or(alloc, settings, pairs.as_slice())?)
        }
        ConfigOperation::GetOption { keys } => Ok(pairs_at(alloc, settings, keys.as_slice())?),
        ConfigOperation::GetAll { prefix } => match prefix {
            Some(prefix) => Ok(pairs_under(alloc, settings, prefix.as_str())?),
            None => Ok(pairs_under(alloc, settings, "")?),
        },
        ConfigOperation::Unset { keys: _ } => Ok(Vec::new(alloc)),
        ConfigOperation::IsModifiable { keys } => Ok(modifiable(alloc, keys.as_slice())?),
        ConfigOperation::Absent => Err(ConfigRefusal::Unsupported),
    }
}

/// What an operation answers over settings.
pub(crate) fn answered(
    alloc: Global,
    settings: &[Pair],
    operation: &ConfigOperation,
) -> Result<List<Pair>, ConfigRefusal>
    ensures ok { IfOk result (λ pairs. specs.answered settings.now operation.now ≡ Ok pairs) }
    ensures refused { IfErr result (λ why. why ≢ ConfigRefusal.OutOfMemory → specs.answered settings.now operation.now ≡ Err why) }
{
    let shown = asked_of(alloc, settings, operation)?;
    if is_too_large(&shown) {
        return Err(ConfigRefusal::ReplyTooLarge { limit: REPLY_LIMIT });
    }
    Ok(pairs_of(alloc, &shown)?)
}
