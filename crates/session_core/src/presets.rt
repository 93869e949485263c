ghost use Rattle.std.specs.Prelude.{◌≡◌, filter, IfOk};
ghost use Rattle.std.specs.Option.{option_map, option_to_list};
ghost use Rattle.session_core.specs.Presets as specs;
ghost use Rattle.session_core.specs.Settings.{has_key};

use cn_base::{List, OutOfMemory, Text};
use cn_types::{Pair, Settings};
use std::alloc::Global;

/// A pair of these texts.
pub(crate) fn pair(alloc: Global, key: &str, value: &str) -> Result<Pair, OutOfMemory>
    ensures { IfOk result (λ pair. pair ≡ specs.pair key.now value.now) }
{
    let key = Text::of(alloc, key)?;
    let value = Text::of(alloc, value)?;
    Ok(Pair {
        key,
        value: Some(value),
    })
}

/// The settings of a new session.
pub(crate) fn presets(alloc: Global) -> Result<Settings, OutOfMemory>
    ensures { IfOk result (λ settings. settings.0 ≡ specs.presets) }
{
    let mut pairs = List::new(alloc);
    pairs.push(pair(alloc, "spark.sql.caseSensitive", "false")?)?;
    pairs.push(pair(
        alloc,
        "spark.sql.execution.arrow.maxRecordsPerBatch",
        "10000",
    )?)?;
    pairs.push(pair(alloc, "spark.sql.ansi.enabled", "false")?)?;
    pairs.push(pair(alloc, "spark.sql.session.timeZone", "UTC")?)?;
    pairs.push(pair(
        alloc,
        "spark.sql.session.localRelationCacheThreshold",
        "67108864",
    )?)?;
    Ok(Settings(pairs))
}

/// The preset value of a key, where it has one.
pub(crate) fn preset_value(key: &str) -> Option<&'static str>
    ensures { filter (has_key key.now) specs.presets
        ≡ option_to_list (option_map (λ value. specs.pair key.now value.now) result) }
{
    match key {
        "spark.sql.caseSensitive" => Some("false"),
        "spark.sql.execution.arrow.maxRecordsPerBatch" => Some("10000"),
        "spark.sql.ansi.enabled" => Some("false"),
        "spark.sql.session.timeZone" => Some("UTC"),
        "spark.sql.session.localRelationCacheThreshold" => Some("67108864"),
        _ => None,
    }
}
