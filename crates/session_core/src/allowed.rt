ghost use Rattle.std.specs.Prelude.{◌≡◌, IfOk};
ghost use Rattle.session_core.specs.Presets as specs;

use cn_base::OutOfMemory;
use std::alloc::Global;

/// Whether the text is what is written for a number of 32 bits.
fn is_integer_text(alloc: Global, text: &str) -> Result<bool, OutOfMemory>
    ensures { IfOk result (λ is_one. is_one ≡ specs.is_integer_text text.now) }
{
    let Ok(number) = text.parse::<i32>() else {
        return Ok(false);
    };
    let written = number.to_string(alloc)?;
    Ok(written.as_str() == text)
}

/// Whether the text spells `true` or `false`, in either case.
fn is_boolean_text(text: &str) -> bool
    ensures { result ≡ specs.is_boolean_text text.now }
{
    text.eq_ignore_ascii_case("true") || text.eq_ignore_ascii_case("false")
}

/// Whether the key may take the value.
pub(crate) fn is_allowed(alloc: Global, key: &str, value: &str) -> Result<bool, OutOfMemory>
    ensures { IfOk result (λ allowed. allowed ≡ specs.is_allowed key.now value.now) }
{
    if key == "spark.sql.caseSensitive" {
        return Ok(is_boolean_text(value));
    }
    if key == "spark.sql.execution.arrow.maxRecordsPerBatch" {
        return is_integer_text(alloc, value);
    }
    if key == "spark.sql.ansi.enabled" {
        return Ok(value.eq_ignore_ascii_case("false"));
    }
    Ok(true)
}
