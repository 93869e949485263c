ghost use Rattle.std.specs.Prelude.{◌≡◌, IfOk};
ghost use Rattle.proto_fields.specs.Views.{seen, member_of};
ghost use Rattle.connect_messages.specs.Requests as requests;

use crate::execute::plan_in;
use cn_base::{Copied, OutOfMemory, Text};
use expression_messages::message_records;
use plan_messages::Plan;
use proto_fields::{Member, MessageKind, Record, latest, text_field};
use request_messages::{UserContext, context_from};
use std::alloc::Global;

/// What is asked of a plan.
#[derive(Debug, Drop)]
pub enum Analysis {
    /// The schema of its rows.
    Schema(Plan),
    /// Whether its rows are streamed.
    IsStreaming(Plan),
    /// The version of the server.
    SparkVersion,
    /// Another question, by its field number; 0 where none is there.
    Other(u32),
}

/// Asks something of a plan (`base.proto`, AnalyzePlanRequest).
#[derive(Debug, Drop)]
pub struct AnalyzeRequest {
    pub session_id: Text,
    pub user_context: Option<UserContext>,
    pub analysis: Analysis,
}

impl Copied for Analysis {
    fn copy(&self, alloc: Global) -> Result<Analysis, OutOfMemory> {
        match self {
            Analysis::Schema(plan) => Ok(Analysis::Schema(plan.copy(alloc)?)),
            Analysis::IsStreaming(plan) => Ok(Analysis::IsStreaming(plan.copy(alloc)?)),
            Analysis::SparkVersion => Ok(Analysis::SparkVersion),
            Analysis::Other(number) => Ok(Analysis::Other(*number)),
        }
    }
}

impl Copied for AnalyzeRequest {
    fn copy(&self, alloc: Global) -> Result<AnalyzeRequest, OutOfMemory> {
        let session_id = self.session_id.copy(alloc)?;
        let user_context = self.user_context.copy(alloc)?;
        Ok(AnalyzeRequest {
            session_id,
            user_context,
            analysis: self.analysis.copy(alloc)?,
        })
    }
}

/// The plan in the member of a request's oneof, with so many levels of nesting for the member's message.
fn analyzed_plan(
    alloc: Global,
    member: &Member,
    number: u32,
    level: u32,
) -> Result<Plan, OutOfMemory>
    ensures { IfOk result (λ plan. plan ≡ requests.analyzed_plan level number (member_of member.now)) }
{
    let found = message_records(alloc, member.since, number)?;
    plan_in(alloc, found.as_slice(), 1, level.saturating_sub(1))
}

/// What a member of a request's oneof asks, with so many levels of nesting for its message.
fn analysis_of_member(alloc: Global, member: &Member, level: u32) -> Result<Analysis, OutOfMemory>
    ensures { IfOk result (λ analysis. analysis ≡ requests.analysis_member level (member_of member.now)) }
{
    match member.number {
        4 => Ok(Analysis::Schema(analyzed_plan(alloc, member, 4, level)?)),
        8 => Ok(Analysis::IsStreaming(analyzed_plan(alloc, member, 8, level)?)),
        10 => Ok(Analysis::SparkVersion),
        number => Ok(Analysis::Other(number)),
    }
}

/// What a request's records ask, with so many levels of nesting for the member's message.
fn analysis_from(alloc: Global, items: &[Record], level: u32) -> Result<Analysis, OutOfMemory>
    ensures { IfOk result (λ analysis. analysis ≡ requests.analysis_at level (seen items.now)) }
{
    match latest(MessageKind::AnalyzePlanRequest, items) {
        Some(member) => analysis_of_member(alloc, &member, level),
        None => Ok(Analysis::Other(0)),
    }
}

/// The request that a message's records hold, with so many levels of nesting at most, its own among them.
pub(crate) fn analyze_from(
    alloc: Global,
    items: &[Record],
    level: u32,
) -> Result<AnalyzeRequest, OutOfMemory>
    ensures { IfOk result (λ request. request ≡ requests.analyze_request_at level (seen items.now)) }
{
    let session_id = text_field(alloc, items, 1)?;
    let user_context = context_from(alloc, items)?;
    Ok(AnalyzeRequest {
        session_id,
        user_context,
        analysis: analysis_from(alloc, items, level.saturating_sub(1))?,
    })
}
