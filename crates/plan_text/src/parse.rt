ghost use Rattle.std.specs.Prelude.{◌≡◌, ◌≢◌, ◌≤◌, ◌<◌, ℕ, length, IfOk};
ghost use Rattle.proto_fields.specs.Sizes.{size_of};
ghost use Rattle.plan_grammar.specs.Derivation.{IsUnexpected};
ghost use Rattle.plan_messages.specs.Depths.{plan_depth};
ghost use Rattle.plan_messages.specs.Known.{IsKnownPlan};
ghost use Rattle.plan_messages.specs.Spelled.{plan_fields};
ghost use Rattle.plan_text.specs.Drafts as drafts;
ghost use Rattle.plan_text.specs.Pipelines.{ATextIsOnePlan, IsPlanOf, IsTooDeep, IsTooLong};
ghost use Rattle.plan_text.specs.Writable.{CanDoAll};

use crate::draft::Draft;
use crate::heights::plan_height;
use crate::makers::no_relation;
use cn_base::{Boxed, OutOfMemory};
use plan_grammar::{Deed, GrammarFault, derivation};
use plan_messages::{Command, Plan, SaveTable, WriteOperation};
use std::alloc::Global;
use thiserror::Error;

/// The longest text.
const LONGEST_TEXT: usize = 1_048_576;

/// The longest spelling of a plan.
const LONGEST_SPELLING: u64 = 67_000_000;

/// How deep messages may be nested in a plan.
const DEEPEST: u32 = 199;

/// Why a text was not read as a plan.
#[derive(Debug, Drop, PartialEq, Eq, Error)]
pub enum TextFault {
    /// The text, or the plan's spelling, has more bytes than this.
    #[error("too long: more than {limit} bytes")]
    TooLong { limit: u64 },
    /// The token at this place, in bytes, is the first at which no continuation is in the grammar; at the end of the text its length.
    #[error("unexpected at {at}")]
    Unexpected { at: u64 },
    /// The plan is nested too deep. The place is the text's length.
    #[error("too deep at {at}")]
    TooDeep { at: u64 },
    /// There was no memory.
    #[error("out of memory")]
    OutOfMemory,
}

impl From<OutOfMemory> for TextFault {
    ghost use Rattle.plan_text.specs.declared.parse.TextFault.TheVariants.{OutOfMemory as no_memory};

    ghost from_gives = { λ _ e. e ≡ no_memory };

    fn from(_error: OutOfMemory) -> TextFault {
        TextFault::OutOfMemory
    }
}

/// What is built of deeds.
fn draft_of(alloc: Global, deeds: Vec<Deed>) -> Result<Draft, OutOfMemory>
    requires { CanDoAll deeds.items drafts.no_draft }
    ensures { IfOk result (λ draft. draft ≡ drafts.all_built deeds.items drafts.no_draft) }
{
    let mut draft = Draft::new(alloc);
    for deed in deeds {
        draft.build(alloc, deed)?;
    }
    Ok(draft)
}

/// The plan of a draft.
fn plan_of_draft(draft: Draft) -> Plan
    ensures { result ≡ drafts.plan_of_draft draft }
{
    let mut draft = draft;
    let root = draft.relations.take(no_relation());
    let write = draft.write.take();
    match write {
        None => Plan::Root(root),
        Some(write) => Plan::Command(Command::WriteOperation(WriteOperation {
            input: root,
            source: None,
            table: Some(SaveTable {
                table_name: write.table,
                save_method: write.method,
            }),
            mode: write.mode,
        })),
    }
}

/// The plan of a text, unless its spelling is too long. It is measured where it is held by a pointer, since a plan is large.
fn allowed(alloc: Global, plan: Plan) -> Result<Plan, TextFault>
    ensures same { IfOk result (λ allowed. allowed ≡ plan) }
    ensures spelled { IfOk result (λ allowed. size_of (plan_fields allowed) ≤ 67000000) }
    ensures too_long { (limit : ℕ) → result ≡ Err (TextFault.TooLong limit) → (limit ≡ 67000000) × (67000000 < size_of (plan_fields plan)) }
    ensures too_deep { (at : ℕ) → result ≢ Err (TextFault.TooDeep at) }
    ensures unexpected { (at : ℕ) → result ≢ Err (TextFault.Unexpected at) }
{
    let held = Boxed::new(alloc, plan)?;
    if held.get().spelled() > LONGEST_SPELLING {
        return Err(TextFault::TooLong {
            limit: LONGEST_SPELLING,
        });
    }
    Ok(held.into_inner())
}

/// The plan of a text's deeds.
#[tactic(auto, using(crate::proofs::KnownDrafts::known_by_deeds))]
fn plan_of_deeds(alloc: Global, deeds: Vec<Deed>, length: u64) -> Result<Plan, TextFault>
    requires { CanDoAll deeds.items drafts.no_draft }
    ensures built { IfOk result (λ plan. plan ≡ drafts.plan_of_deeds deeds.items) }
    ensures depth { IfOk result (λ plan. plan_depth plan ≤ 199) }
    ensures known { IfOk result IsKnownPlan }
    ensures spelled { IfOk result (λ plan. size_of (plan_fields plan) ≤ 67000000) }
    ensures too_long { (limit : ℕ) → result ≡ Err (TextFault.TooLong limit) → (limit ≡ 67000000) × ((67000000 < size_of (plan_fields (drafts.plan_of_deeds deeds.items))) × (plan_depth (drafts.plan_of_deeds deeds.items) ≤ 199)) }
    ensures too_deep { (at : ℕ) → result ≡ Err (TextFault.TooDeep at) → (at ≡ length) × (199 < plan_depth (drafts.plan_of_deeds deeds.items)) }
    ensures unexpected { (at : ℕ) → result ≢ Err (TextFault.Unexpected at) }
{
    if plan_height(alloc, deeds.as_slice())? > DEEPEST {
        return Err(TextFault::TooDeep { at: length });
    }
    let draft = draft_of(alloc, deeds)?;
    allowed(alloc, plan_of_draft(draft))
}

/// Reads a pipeline text as a plan.
///
/// `TooLong` says that the text has more than 1,048,576 bytes, or, after all other refusals, that the plan's spelling has more than
/// 67,000,000. `Unexpected` tells the first token at which no continuation is in the grammar. `TooDeep` says that the text is a pipeline
/// whose plan is nested deeper than 199 messages. A plan that is read is nested at most so deep, and has a spelling.
#[tactic(auto, using(crate::proofs::ValuesPhases::deeds_can_be_done))]
pub fn parse_pipeline(alloc: Global, text: &str) -> Result<Plan, TextFault>
    ensures planned { IfOk result (IsPlanOf text.now) }
    ensures short { IfOk result (λ plan. length text.now ≤ 1048576) }
    ensures depth { IfOk result (λ plan. plan_depth plan ≤ 199) }
    ensures known { IfOk result IsKnownPlan }
    ensures spelled { IfOk result (λ plan. size_of (plan_fields plan) ≤ 67000000) }
    ensures too_long { (limit : ℕ) → result ≡ Err (TextFault.TooLong limit) → IsTooLong text.now limit }
    ensures unexpected { (at : ℕ) → result ≡ Err (TextFault.Unexpected at) → (length text.now ≤ 1048576) × IsUnexpected text.now at }
    ensures too_deep { (at : ℕ) → result ≡ Err (TextFault.TooDeep at) → (at ≡ length text.now) × IsTooDeep text.now }
{
    if text.len() > LONGEST_TEXT {
        return Err(TextFault::TooLong {
            limit: LONGEST_TEXT as u64,
        });
    }
    match derivation(alloc, text) {
        Ok(deeds) => plan_of_deeds(alloc, deeds, text.len() as u64),
        Err(GrammarFault::Unexpected { at }) => Err(TextFault::Unexpected { at: at as u64 }),
        Err(GrammarFault::OutOfMemory) => Err(TextFault::OutOfMemory),
    }
}

/// Law: a text is at most one plan.
pub fn a_text_is_one_plan()
    ensures { ATextIsOnePlan }
{
    plan_grammar::a_text_has_one_derivation();
}
