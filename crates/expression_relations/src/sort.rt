ghost use Rattle.std.specs.Prelude.{◌≡◌, IfOk};
ghost use Rattle.proto_fields.specs.Views.{seen};
ghost use Rattle.expression_messages.specs.Depths.{told};
ghost use Rattle.expression_relations.specs.Depths as depths;
ghost use Rattle.expression_relations.specs.Known as known;
ghost use Rattle.expression_relations.specs.Reading as reading;

use crate::sort_orders::{are_known_sort_orders, deepest_sort_order, sort_orders_from};
use cn_base::{Boxed, Copied, List, OutOfMemory};
use expression_messages::SortOrder;
use proto_fields::{Record, optional_bool};
use std::alloc::Global;

/// The rows in an order (`relations.proto`, Sort).
#[derive(Debug, Drop)]
pub struct Sort<R> {
    /// `Other(0)` where no relation is there.
    pub input: Boxed<R>,
    /// The keys, the first one first.
    pub order: List<SortOrder>,
    pub is_global: Option<bool>,
}

impl<R: Copied + Drop> Copied for Sort<R> {
    fn copy(&self, alloc: Global) -> Result<Sort<R>, OutOfMemory> {
        let input = self.input.get().copy(alloc)?;
        sort_like(alloc, self, input)
    }
}

/// The sort over this input that a message's records hold, with so many levels of nesting for each of its keys.
pub fn sort_over<R: Drop>(
    alloc: Global,
    items: &[Record],
    input: R,
    level: u32,
) -> Result<Sort<R>, OutOfMemory>
    ensures { IfOk result (λ it. it ≡ reading.sort_of level input (seen items.now)) }
{
    let input = Boxed::new(alloc, input)?;
    let order = sort_orders_from(alloc, items, 2, level)?;
    let is_global = optional_bool(items, 3);
    Ok(Sort {
        input,
        order,
        is_global,
    })
}

/// The same sort over another input.
pub fn sort_like<R, S: Drop>(alloc: Global, it: &Sort<R>, input: S) -> Result<Sort<S>, OutOfMemory>
    ensures { IfOk result (λ copied. copied ≡ record {
      input = input;
      order = it.now.order;
      is_global = it.now.is_global;
    }) }
{
    let input = Boxed::new(alloc, input)?;
    let order = it.order.copy(alloc)?;
    Ok(Sort {
        input,
        order,
        is_global: it.is_global,
    })
}

/// How many messages are nested in the sort's fields besides its input: 0 without keys, 2^32 - 1 where there are more. It takes no memory.
pub fn sort_rest_depth<R>(it: &Sort<R>) -> u32
    ensures { result ≡ told (depths.sort_depth it.now) }
{
    deepest_sort_order(it.order.as_slice())
}

/// Whether the sort has a spelling where its input has one: none of its keys is outside the profile. It takes no memory.
pub fn is_known_sort<R>(it: &Sort<R>) -> bool
    ensures { result ≡ known.is_known_sort it.now }
{
    are_known_sort_orders(it.order.as_slice())
}
