ghost use Rattle.std.specs.Prelude.{◌≡◌, find, bytes_eq, codes};
ghost use Rattle.std.specs.Option.{option_copied};
ghost use Rattle.resolve_names.specs.Matching as matching;

use cn_types::{Pair, Settings};

/// Whether names of columns match exactly: the value of `spark.sql.caseSensitive`, which is false where it is not set, is `true` in
/// either case. It takes no memory.
pub fn is_case_sensitive(settings: &Settings) -> bool
    ensures { result ≡ matching.case_sensitive settings.now }
{
    match case_pair(settings) {
        Some(pair) => is_true(pair),
        None => false,
    }
}

fn case_pair(settings: &Settings) -> Option<&Pair>
    ensures { option_copied result ≡ find (λ pair. bytes_eq pair.key (codes "spark.sql.caseSensitive")) settings.now.0 }
{
    settings
        .0
        .as_slice()
        .iter()
        .find(|pair| pair.key.as_str() == "spark.sql.caseSensitive")
}

fn is_true(pair: &Pair) -> bool
    ensures { result ≡ matching.is_true pair.now.value }
{
    match &pair.value {
        Some(value) => value.as_str().eq_ignore_ascii_case("true"),
        None => false,
    }
}
