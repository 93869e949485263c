ghost use Rattle.std.specs.Prelude.{◌≡◌, ◌≢◌, ◌++◌, map, codes, IfOk, IfErr, Ok, Err};
ghost use Rattle.std.specs.Fmt.{decimal};
ghost use Rattle.std.specs.String.{string_bytes};
ghost use Rattle.resolve_names.specs.declared.error.ErrorName.TheVariants.{Unsupported};
ghost use Rattle.resolve_names.specs.declared.error.ResolveStop.TheVariants.{Analysis, OutOfMemory as no_memory};
ghost use Rattle.resolve_names.specs.Refusals.{refusal};
ghost use Rattle.plan_model.specs.WellFormed.{IsWellFormedPlan};
ghost use Rattle.resolve_sound.specs.Sound.{HaveFittingRows, HaveSafeRows};
ghost use Rattle.plan_resolve.specs.Resolving as rules;
ghost use Rattle.plan_resolve.specs.Safety.{IsSafePlan};

use crate::member::Outside;
use crate::saving::save;
use crate::walk::relation_found;
use cn_base::{Copied, List, OutOfMemory};
use cn_types::{Field, Schema, Settings};
use command_messages::{Command, WriteOperation};
use plan_messages::Plan;
use plan_model::{Resolved, Save};
use relation_messages::Relation;
use resolve_names::{ErrorName, ResolveStop, ScopeColumn, analysis_stop, is_case_sensitive};
use resolve_relations::Found;
use std::alloc::Global;
use table_store::Tables;

/// What a plan is resolved to over these tables, under a session's settings: its node, the schema of its rows, and for a write command where
/// they go; or the first error of its analysis. Rows are shared and not copied.
///
/// Over tables whose rows fit their schemas, a plan that is resolved is well formed, which its evaluation asks for. Over tables that have nulls
/// only where their schemas say so, no row that the plan allows has a null in a column that its schema says is never null.
pub fn resolve(
    alloc: Global,
    plan: &Plan,
    tables: &Tables,
    settings: &Settings,
) -> Result<Resolved, ResolveStop>
    ensures ok { IfOk result (λ resolved. rules.resolution plan.now tables.now settings.now ≡ Ok resolved) }
    ensures refused { IfErr result (λ e. e ≢ no_memory → rules.resolution plan.now tables.now settings.now ≡ Err e) }
    ensures well_formed { HaveFittingRows tables.now.named → IfOk result IsWellFormedPlan }
    ensures nulls { HaveSafeRows tables.now.named → IfOk result IsSafePlan }
{
    resolved(alloc, plan, tables, settings)
}

#[tactic(auto, unfolding(crate::specs::Resolving::resolution), using(crate::proofs::Answered::plans_same))]
fn resolved(
    alloc: Global,
    plan: &Plan,
    tables: &Tables,
    settings: &Settings,
) -> Result<Resolved, ResolveStop>
    ensures ok { IfOk result (λ resolved. rules.resolution plan.now tables.now settings.now ≡ Ok resolved) }
    ensures refused { IfErr result (λ e. e ≢ no_memory → rules.resolution plan.now tables.now settings.now ≡ Err e) }
{
    let outside = Outside {
        case_sensitive: is_case_sensitive(settings),
        tables,
    };
    plan_answer(alloc, &outside, plan)
}

#[tactic(auto, unfolding(crate::specs::Resolving::plan_answer))]
fn plan_answer(alloc: Global, outside: &Outside<'_>, plan: &Plan) -> Result<Resolved, ResolveStop>
    ensures ok { IfOk result (λ resolved. rules.plan_answer (rules.counted_from outside.now.case_sensitive outside.now.tables.now.named 0) plan.now ≡ Ok resolved) }
    ensures refused { IfErr result (λ e. e ≢ no_memory → rules.plan_answer (rules.counted_from outside.now.case_sensitive outside.now.tables.now.named 0) plan.now ≡ Err e) }
{
    match plan {
        Plan::Root(relation) => rows_answer(alloc, outside, relation),
        Plan::Command(Command::WriteOperation(it)) => write_answer(alloc, outside, it),
        Plan::Command(Command::Other(number)) => Err(unsupported(alloc, *number)),
    }
}

/// A relation whose rows are asked for.
fn rows_answer(
    alloc: Global,
    outside: &Outside<'_>,
    relation: &Relation,
) -> Result<Resolved, ResolveStop>
    ensures ok { IfOk result (λ resolved. rules.rows_answer (rules.counted_from outside.now.case_sensitive outside.now.tables.now.named 0) relation.now ≡ Ok resolved) }
    ensures refused { IfErr result (λ e. e ≢ no_memory → rules.rows_answer (rules.counted_from outside.now.case_sensitive outside.now.tables.now.named 0) relation.now ≡ Err e) }
{
    let found = root_found(alloc, outside, relation)?;
    answer(alloc, found, None)
}

/// A write command, whose checks follow those of its input.
fn write_answer(
    alloc: Global,
    outside: &Outside<'_>,
    it: &WriteOperation<Relation>,
) -> Result<Resolved, ResolveStop>
    ensures ok { IfOk result (λ resolved. rules.write_answer (rules.counted_from outside.now.case_sensitive outside.now.tables.now.named 0) it.now ≡ Ok resolved) }
    ensures refused { IfErr result (λ e. e ≢ no_memory → rules.write_answer (rules.counted_from outside.now.case_sensitive outside.now.tables.now.named 0) it.now ≡ Err e) }
{
    let found = root_found(alloc, outside, &it.input)?;
    let save = save(alloc, found.columns.as_slice(), &it.table, it.mode)?;
    answer(alloc, found, Some(save))
}

fn root_found(
    alloc: Global,
    outside: &Outside<'_>,
    relation: &Relation,
) -> Result<Found, ResolveStop>
    ensures ok { IfOk result (λ found. rules.counted_from outside.now.case_sensitive outside.now.tables.now.named 0 relation.now ≡ Ok found) }
    ensures refused { IfErr result (λ e. e ≢ no_memory → rules.counted_from outside.now.case_sensitive outside.now.tables.now.named 0 relation.now ≡ Err e) }
{
    let mut next = 0;
    relation_found(alloc, outside, relation, &mut next)
}

/// A command outside the profile, by its field number.
fn unsupported(alloc: Global, number: u32) -> ResolveStop
    ensures { result ≢ no_memory → result ≡ Analysis (refusal Unsupported (codes "command " ++ decimal number)) }
{
    match command_text(alloc, number) {
        Ok(text) => analysis_stop(alloc, ErrorName::Unsupported, text.as_str()),
        Err(_) => ResolveStop::OutOfMemory,
    }
}

fn command_text(alloc: Global, number: u32) -> Result<String, OutOfMemory>
    ensures { IfOk result (λ text. string_bytes text ≡ codes "command " ++ decimal number) }
{
    let text = format!(in alloc; "command {number}")?;
    Ok(text)
}

fn answer(alloc: Global, found: Found, save: Option<Save>) -> Result<Resolved, ResolveStop>
    ensures ok { IfOk result (λ resolved. resolved ≡ rules.answer found save) }
    ensures refused { IfErr result (λ e. e ≡ no_memory) }
{
    let Found { node, columns, .. } = found;
    let fields = fields_of(alloc, columns.as_slice())?;
    Ok(Resolved {
        node,
        schema: Schema(fields),
        save,
    })
}

#[tactic(auto, using(resolve_relations::proofs::Numbered::map_steps))]
fn fields_of(alloc: Global, columns: &[ScopeColumn]) -> Result<List<Field>, OutOfMemory>
    ensures { IfOk result (λ fields. fields ≡ map rules.field_of columns.now) }
{
    let mut fields = List::new(alloc);
    for column in columns {
        fields.push(field_of(alloc, column)?)?;
    }
    Ok(fields)
}

#[tactic(auto, unfolding(crate::specs::Resolving::field_of))]
fn field_of(alloc: Global, column: &ScopeColumn) -> Result<Field, OutOfMemory>
    ensures { IfOk result (λ field. field ≡ rules.field_of column.now) }
{
    Ok(Field {
        name: column.name.copy(alloc)?,
        kind: column.kind,
        nullable: column.nullable,
    })
}
