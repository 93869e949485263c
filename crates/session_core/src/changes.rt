ghost use Rattle.std.specs.Prelude.{◌≡◌, ◌++◌, ℕ, List, map, filter, bytes_eq, IfOk, OnOk};
ghost use Rattle.std.specs.List.{list_any};
ghost use Rattle.std.specs.Option.{option_map_or};
ghost use Rattle.session_core.specs.Config as specs;
ghost use Rattle.session_core.specs.Places.{AreFirst, is_in};
ghost use Rattle.session_core.specs.Presets.{presets};
ghost use Rattle.session_core.specs.Settings as words;

use crate::places::places_of;
use crate::presets::{pair as pair_of_texts, preset_value};
use cn_base::{Copied, List, OutOfMemory, Text};
use cn_types::{Pair, Settings};
use request_messages::ConfigOperation;
use response_messages::KeyValue;
use std::alloc::Global;
use std::collections::BTreeMap;

/// A pair of a message as a setting.
fn setting(alloc: Global, pair: &KeyValue) -> Result<Pair, OutOfMemory>
    ensures { IfOk result (λ made. made ≡ specs.pair_of pair.now) }
{
    Ok(Pair {
        key: pair.key.copy(alloc)?,
        value: pair.value.copy(alloc)?,
    })
}

/// Puts a pair where its key stands, or else last. Where memory runs out, nothing is promised of what stands then.
fn put<'a>(
    pairs: &mut List<Pair>,
    places: &mut BTreeMap<&'a str, usize>,
    key: &'a str,
    pair: Pair,
) -> Result<(), OutOfMemory>
    requires places { AreFirst places.old pairs.old }
    requires key { pair.key ≡ key.now }
    ensures pairs { OnOk result (pairs.new ≡ words.put pairs.old pair) }
    ensures places { OnOk result (AreFirst places.new pairs.new) }
{
    match places.get(key) {
        Some(place) => {
            pairs.set(*place, pair);
            Ok(())
        }
        None => {
            places.insert(key, pairs.len())?;
            pairs.push(pair)
        }
    }
}

/// The settings with these pairs put among them, one after another.
fn put_all(alloc: Global, settings: &[Pair], new: &[KeyValue]) -> Result<List<Pair>, OutOfMemory>
    ensures { IfOk result (λ pairs. pairs ≡ words.put_all settings.now (map specs.pair_of new.now)) }
{
    let mut places = places_of(alloc, settings)?;
    let mut pairs = copied(alloc, settings)?;
    for pair in new {
        let key = pair.key.as_str();
        put(&mut pairs, &mut places, key, setting(alloc, pair)?)?;
    }
    Ok(pairs)
}

fn copied(alloc: Global, settings: &[Pair]) -> Result<List<Pair>, OutOfMemory>
    ensures { IfOk result (λ pairs. pairs ≡ settings.now) }
{
    let mut pairs = List::new(alloc);
    for pair in settings {
        pairs.push(pair.copy(alloc)?)?;
    }
    Ok(pairs)
}

/// Adds what is left of a pair where it is unset: the preset of its key, or nothing.
fn put_preset(alloc: Global, pairs: &mut List<Pair>, key: &str) -> Result<(), OutOfMemory>
    ensures { OnOk result (pairs.new ≡ pairs.old ++ filter (words.has_key key.now) presets) }
{
    match preset_value(key) {
        Some(value) => pairs.push(pair_of_texts(alloc, key, value)?),
        None => Ok(()),
    }
}

/// The keys, sorted.
fn set_of<'a>(alloc: Global, keys: &'a [Text]) -> Result<BTreeMap<&'a str, ()>, OutOfMemory>
    ensures { IfOk result (λ set. (key : List ℕ) → is_in set key ≡ list_any (λ named. bytes_eq named key) keys.now) }
{
    let mut set = BTreeMap::new(alloc);
    for key in keys {
        set.insert(key.as_str(), ())?;
    }
    Ok(set)
}

/// The settings that are left where these keys are unset.
fn without(alloc: Global, keys: &[Text], settings: &[Pair]) -> Result<List<Pair>, OutOfMemory>
    ensures { IfOk result (λ pairs. pairs ≡ words.without keys.now settings.now) }
{
    let unset = set_of(alloc, keys)?;
    let mut pairs = List::new(alloc);
    for pair in settings {
        if unset.contains_key(pair.key.as_str()) {
            put_preset(alloc, &mut pairs, pair.key.as_str())?;
        } else {
            pairs.push(pair.copy(alloc)?)?;
        }
    }
    Ok(pairs)
}

/// The settings that an accepted operation leaves, where it changes them.
pub(crate) fn changed(
    alloc: Global,
    settings: &[Pair],
    operation: &ConfigOperation,
) -> Result<Option<Settings>, OutOfMemory>
    ensures { IfOk result (λ new. option_map_or (λ new. new.0) new settings.now ≡ specs.changed settings.now operation.now) }
{
    match operation {
        ConfigOperation::Set { pairs } => {
            Ok(Some(Settings(put_all(alloc, settings, pairs.as_slice())?)))
        }
        ConfigOperation::Get { keys: _ } => Ok(None),
        ConfigOperation::GetWithDefault { pairs: _ } => Ok(None),
        ConfigOperation::GetOption { keys: _ } => Ok(None),
        ConfigOperation::GetAll { prefix: _ } => Ok(None),
        ConfigOperation::Unset { keys } => {
            Ok(Some(Settings(without(alloc, keys.as_slice(), settings)?)))
        }
        ConfigOperation::IsModifiable { keys: _ } => Ok(None),
        ConfigOperation::Absent => Ok(None),
    }
}
