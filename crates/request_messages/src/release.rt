ghost use Rattle.std.specs.Prelude.{◌≡◌, ◌≤◌, IfOk};
ghost use Rattle.proto_fields.specs.Views.{seen, member_of};
ghost use Rattle.request_messages.specs.Depths as depths;
ghost use Rattle.request_messages.specs.Requests as requests;

use crate::UserContext;
use crate::context_field::{context_depth, context_from};
use cn_base::{Copied, OutOfMemory, Text};
use expression_messages::message_records;
use proto_fields::{Member, MessageKind, Record, latest, text_field};
use std::alloc::Global;

/// What is released of an execution.
#[derive(Debug, Drop)]
pub enum Release {
    /// The execution with all of its responses (`release_all`).
    All,
    /// Its responses up to the one with this id (`release_until`).
    Until { response_id: Text },
    /// Nothing of both.
    Absent,
}

/// Releases responses of an execution (`base.proto`, ReleaseExecuteRequest).
#[derive(Debug, Drop)]
pub struct ReleaseRequest {
    pub session_id: Text,
    pub user_context: Option<UserContext>,
    pub operation_id: Text,
    pub release: Release,
}

impl Copied for Release {
    fn copy(&self, alloc: Global) -> Result<Release, OutOfMemory> {
        match self {
            Release::All => Ok(Release::All),
            Release::Until { response_id } => Ok(Release::Until {
                response_id: response_id.copy(alloc)?,
            }),
            Release::Absent => Ok(Release::Absent),
        }
    }
}

impl Copied for ReleaseRequest {
    fn copy(&self, alloc: Global) -> Result<ReleaseRequest, OutOfMemory> {
        Ok(ReleaseRequest {
            session_id: self.session_id.copy(alloc)?,
            user_context: self.user_context.copy(alloc)?,
            operation_id: self.operation_id.copy(alloc)?,
            release: self.release.copy(alloc)?,
        })
    }
}

/// What a member of the request's oneof releases.
fn release_of_member(alloc: Global, member: &Member) -> Result<Release, OutOfMemory>
    ensures { IfOk result (λ release. release ≡ requests.release_member (member_of member.now)) }
{
    if member.number == 5 {
        return Ok(Release::All);
    }
    let found = message_records(alloc, member.since, 6)?;
    let response_id = text_field(alloc, found.as_slice(), 1)?;
    Ok(Release::Until { response_id })
}

/// What the request's records release.
fn release_in(alloc: Global, items: &[Record]) -> Result<Release, OutOfMemory>
    ensures { IfOk result (λ release. release ≡ requests.release_in (seen items.now)) }
{
    match latest(MessageKind::ReleaseExecuteRequest, items) {
        Some(member) => release_of_member(alloc, &member),
        None => Ok(Release::Absent),
    }
}

/// The request that a message's records hold.
pub fn release_from(alloc: Global, items: &[Record]) -> Result<ReleaseRequest, OutOfMemory>
    ensures { IfOk result (λ request. request ≡ requests.release_request_of (seen items.now)) }
{
    Ok(ReleaseRequest {
        session_id: text_field(alloc, items, 1)?,
        user_context: context_from(alloc, items)?,
        operation_id: text_field(alloc, items, 3)?,
        release: release_in(alloc, items)?,
    })
}

/// How many messages are nested in the fields of a release.
fn member_depth(release: &Release) -> u32
    ensures exact { result ≡ depths.release_member_depth release.now }
    ensures few { result ≤ 1 }
{
    match release {
        Release::All => 1,
        Release::Until { response_id: _ } => 1,
        Release::Absent => 0,
    }
}

/// How many messages are nested in the request's message, itself among them. It takes no memory.
pub fn release_depth(request: &ReleaseRequest) -> u32
    ensures { result ≡ depths.release_depth request.now }
{
    let inner = context_depth(&request.user_context).max(member_depth(&request.release));
    inner + 1
}
