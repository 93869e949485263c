ghost use Rattle.std.specs.Prelude.{◌≡◌, ◌<◌, ◌^◌, map, nat_lt, sum_by, IfOk};
ghost use Rattle.session_core.specs.Config as specs;
ghost use Rattle.session_core.specs.Shown.{told};

use cn_base::{Copied, List, OutOfMemory, Text};
use cn_types::Pair;
use std::alloc::Global;

/// How many bytes answered pairs may weigh together.
pub(crate) const REPLY_LIMIT: u32 = 8_388_608;

/// A pair that is to be answered, before it is copied.
#[derive(Clone, Copy, Debug)]
pub(crate) struct Shown<'a> {
    pub(crate) key: &'a str,
    pub(crate) value: Option<&'a str>,
}

impl Shown<'_> {
    /// What the pair weighs: its key, its value and 16.
    fn weight(&self) -> u128
        ensures exact { result ≡ specs.pair_weight (told self.now) }
        ensures small { result < 2 ^ 66 }
    {
        let value = match self.value {
            Some(value) => value.len(),
            None => 0,
        };
        self.key.len() as u128 + value as u128 + 16
    }

    fn pair(&self, alloc: Global) -> Result<Pair, OutOfMemory>
        ensures { IfOk result (λ pair. pair ≡ told self.now) }
    {
        let key = Text::of(alloc, self.key)?;
        let value = match self.value {
            Some(value) => Some(Text::of(alloc, value)?),
            None => None,
        };
        Ok(Pair { key, value })
    }
}

/// Whether these pairs weigh more than may be answered.
pub(crate) fn is_too_large(shown: &[Shown]) -> bool
    ensures { result ≡ nat_lt 8388608 (sum_by specs.pair_weight (map told shown.now)) }
{
    let limit = u128::from(REPLY_LIMIT);
    let mut total = 0;
    for pair in shown {
        total += pair.weight();
        if total > limit {
            return true;
        }
    }
    false
}

/// The pairs as an answer.
pub(crate) fn pairs_of(alloc: Global, shown: &[Shown]) -> Result<List<Pair>, OutOfMemory>
    ensures { IfOk result (λ pairs. pairs ≡ map told shown.now) }
{
    let mut pairs = List::new(alloc);
    for pair in shown {
        pairs.push(pair.pair(alloc)?)?;
    }
    Ok(pairs)
}
