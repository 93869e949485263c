ghost use Rattle.std.specs.Prelude.{◌≡◌, IfOk};
ghost use Rattle.std.specs.Option.{option_map};
ghost use Rattle.session_core.specs.Places.{AreFirst};
ghost use Rattle.session_core.specs.Settings as specs;

use cn_base::OutOfMemory;
use cn_types::Pair;
use sqlite_items::at;
use std::alloc::Global;
use std::collections::BTreeMap;

/// The place of each key: that of the first pair with it. A sorted map keeps its bound for keys that a peer chose.
pub(crate) fn places_of<'a>(
    alloc: Global,
    settings: &'a [Pair],
) -> Result<BTreeMap<&'a str, usize>, OutOfMemory>
    ensures { IfOk result (λ places. AreFirst places settings.now) }
{
    let mut places = BTreeMap::new(alloc);
    for (place, pair) in settings.iter().enumerate() {
        let key = pair.key.as_str();
        if !places.contains_key(key) {
            places.insert(key, place)?;
        }
    }
    Ok(places)
}

/// The value of a key among settings with these places. It takes no memory.
pub(crate) fn value_at<'a>(
    settings: &'a [Pair],
    places: &BTreeMap<&'a str, usize>,
    key: &str,
) -> Option<&'a str>
    requires { AreFirst places.now settings.now }
    ensures { option_map (λ value. value.now) result ≡ specs.value_of settings.now key.now }
{
    let place = places.get(key)?;
    let pair = at(settings, *place)?;
    match &pair.value {
        Some(value) => Some(value.as_str()),
        None => None,
    }
}
