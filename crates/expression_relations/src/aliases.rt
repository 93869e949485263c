ghost use Rattle.std.specs.Prelude.{◌≡◌, ◌≤◌, ◌++◌, IfOk, OnOk, map};
ghost use Rattle.std.specs.List.{list_all};
ghost use Rattle.proto_fields.specs.Sizes.{size_of};
ghost use Rattle.proto_fields.specs.Spelling.{spell};
ghost use Rattle.proto_fields.specs.Views.{seen};
ghost use Rattle.expression_messages.specs.Depths as depths;
ghost use Rattle.expression_messages.specs.Expressions as expressions;
ghost use Rattle.expression_messages.specs.Known as known;
ghost use Rattle.expression_messages.specs.Messages.{messages_at, messages_fields};
ghost use Rattle.expression_messages.specs.Spelled as spelled;

use cn_base::{List, OutOfMemory};
use expression_messages::{
    Alias, alias_depth, alias_from, alias_size, is_known_expr, put_alias, put_message_head,
};
use proto_fields::{MessageWriter, Record, message_size, payloads, records};
use std::alloc::Global;

/// The aliases of a repeated field of this number, with so many levels of nesting for each.
pub fn aliases_from(
    alloc: Global,
    items: &[Record],
    number: u32,
    level: u32,
) -> Result<List<Alias>, OutOfMemory>
    ensures { IfOk result
        (λ aliases. aliases ≡ messages_at (expressions.alias_at level) number (seen items.now)) }
{
    let mut aliases = List::new(alloc);
    for payload in payloads(alloc, items, number)?.as_slice() {
        let found = records(alloc, *payload)?;
        aliases.push(alias_from(alloc, found.as_slice(), level)?)?;
    }
    Ok(aliases)
}

/// Puts the aliases of a repeated field of this number before what stands. Where memory runs out, nothing is promised of what stands then.
pub fn put_aliases(
    out: &mut MessageWriter,
    number: u32,
    aliases: &[Alias],
) -> Result<(), OutOfMemory>
    requires low { 1 ≤ number }
    requires high { number ≤ 536870911 }
    ensures { OnOk result (out.new
        ≡ spell (messages_fields spelled.alias_fields number aliases.now) ++ out.old) }
{
    for index in (0..aliases.len()).rev() {
        let end = out.len();
        put_alias(out, &aliases[index])?;
        put_message_head(out, number, end)?;
    }
    Ok(())
}

/// How many bytes the aliases of a repeated field of this number take; 2^64 - 1 where it is above that. It takes no memory.
pub fn aliases_size(number: u32, aliases: &[Alias]) -> u64
    requires low { 1 ≤ number }
    requires high { number ≤ 536870911 }
    ensures { result ≡ size_of (messages_fields spelled.alias_fields number aliases.now) }
{
    let mut total = 0u64;
    for alias in aliases {
        total = total.saturating_add(message_size(number, alias_size(alias)));
    }
    total
}

/// How deep the deepest of these aliases is; 0 where there is none, 2^32 - 1 where it is above that. It takes no memory.
pub fn deepest_alias(aliases: &[Alias]) -> u32
    ensures { result ≡ depths.told (depths.largest (map depths.alias_depth aliases.now)) }
{
    let mut deepest = 0u32;
    for alias in aliases {
        deepest = deepest.max(alias_depth(alias));
    }
    deepest
}

/// Whether the expressions of all of these aliases have a spelling. It takes no memory.
pub fn are_known_aliases(aliases: &[Alias]) -> bool
    ensures { result ≡ list_all (λ alias. known.is_known_expr alias.expr) aliases.now }
{
    for alias in aliases {
        if !is_known_expr(alias.expr.get()) {
            return false;
        }
    }
    true
}
