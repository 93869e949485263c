ghost use Rattle.std.specs.Prelude.{◌≡◌, IfOk};
ghost use Rattle.proto_fields.specs.Views.{seen};
ghost use Rattle.expression_messages.specs.Depths.{told};
ghost use Rattle.expression_relations.specs.Depths as depths;
ghost use Rattle.expression_relations.specs.Known as known;
ghost use Rattle.expression_relations.specs.Reading as reading;

use cn_base::{Boxed, Copied, List, OutOfMemory};
use expression_messages::{Expr, are_known, deepest, exprs_from};
use proto_fields::Record;
use std::alloc::Global;

/// Rows of these expressions (`relations.proto`, Project).
#[derive(Debug, Drop)]
pub struct Project<R> {
    /// `Other(0)` where no relation is there.
    pub input: Boxed<R>,
    pub expressions: List<Expr>,
}

impl<R: Copied + Drop> Copied for Project<R> {
    fn copy(&self, alloc: Global) -> Result<Project<R>, OutOfMemory> {
        let input = self.input.get().copy(alloc)?;
        project_like(alloc, self, input)
    }
}

/// The project over this input that a message's records hold, with so many levels of nesting for each of its expressions.
pub fn project_over<R: Drop>(
    alloc: Global,
    items: &[Record],
    input: R,
    level: u32,
) -> Result<Project<R>, OutOfMemory>
    ensures { IfOk result (λ it. it ≡ reading.project_of level input (seen items.now)) }
{
    let input = Boxed::new(alloc, input)?;
    let expressions = exprs_from(alloc, items, 3, level)?;
    Ok(Project { input, expressions })
}

/// The same project over another input.
pub fn project_like<R, S: Drop>(
    alloc: Global,
    it: &Project<R>,
    input: S,
) -> Result<Project<S>, OutOfMemory>
    ensures { IfOk result
        (λ copied. copied ≡ record { input = input; expressions = it.now.expressions }) }
{
    let input = Boxed::new(alloc, input)?;
    let expressions = it.expressions.copy(alloc)?;
    Ok(Project { input, expressions })
}

/// How many messages are nested in the project's fields besides its input: 0 without expressions, 2^32 - 1 where there are more. It takes no
/// memory.
pub fn project_rest_depth<R>(it: &Project<R>) -> u32
    ensures { result ≡ told (depths.project_depth it.now) }
{
    deepest(it.expressions.as_slice())
}

/// Whether the project has a spelling where its input has one: none of its expressions is outside the profile. It takes no memory.
pub fn is_known_project<R>(it: &Project<R>) -> bool
    ensures { result ≡ known.is_known_project it.now }
{
    are_known(it.expressions.as_slice())
}
