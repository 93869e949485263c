ghost use Rattle.std.specs.Prelude.{◌≡◌, ◌≢◌, ◌++◌, codes, IfOk};
ghost use Rattle.std.specs.Fmt.{signed_decimal};
ghost use Rattle.std.specs.String.{string_bytes};
ghost use Rattle.resolve_names.specs.declared.error.ResolveStop.TheVariants.{Analysis, OutOfMemory as no_memory};
ghost use Rattle.resolve_relations.specs.Making as rules;

use cn_base::OutOfMemory;
use resolve_names::{ErrorName, ResolveStop, analysis_stop};
use std::alloc::Global;

/// An option that has no meaning, by its number.
pub fn bad_option(alloc: Global, number: i32) -> ResolveStop
    ensures { result ≢ no_memory → result ≡ Analysis (rules.bad_option number) }
{
    match option_text(alloc, number) {
        Ok(text) => analysis_stop(alloc, ErrorName::Unsupported, text.as_str()),
        Err(_) => ResolveStop::OutOfMemory,
    }
}

fn option_text(alloc: Global, number: i32) -> Result<String, OutOfMemory>
    ensures { IfOk result (λ text. string_bytes text ≡ codes "option " ++ signed_decimal number) }
{
    let text = format!(in alloc; "option {number}")?;
    Ok(text)
}
