ghost use Rattle.std.specs.Prelude.{◌≡◌, ◌≤◌, IfSome, option_map};
ghost use Rattle.relation_members.specs.Inputs as inputs;

use crate::RelationMember;

/// The number of the member's field; `None` where it is outside the profile. It takes no memory.
pub fn member_number<R>(member: &RelationMember<R>) -> Option<u32>
    ensures exact { result ≡ inputs.member_number_of member.now }
    ensures low { IfSome result (λ number. 1 ≤ number) }
    ensures high { IfSome result (λ number. number ≤ 536870911) }
{
    match member {
        RelationMember::Read(_) => Some(2),
        RelationMember::Project(_) => Some(3),
        RelationMember::Filter(_) => Some(4),
        RelationMember::Join(_) => Some(5),
        RelationMember::SetOperation(_) => Some(6),
        RelationMember::Sort(_) => Some(7),
        RelationMember::Limit(_) => Some(8),
        RelationMember::Aggregate(_) => Some(9),
        RelationMember::LocalRelation(_) => Some(11),
        RelationMember::Offset(_) => Some(13),
        RelationMember::Deduplicate(_) => Some(14),
        RelationMember::Range(_) => Some(15),
        RelationMember::SubqueryAlias(_) => Some(16),
        RelationMember::ToDf(_) => Some(18),
        RelationMember::WithColumnsRenamed(_) => Some(19),
        RelationMember::DropColumns(_) => Some(21),
        RelationMember::WithColumns(_) => Some(23),
        RelationMember::Other(_) => None,
    }
}

/// The only input, or the left one; `None` where there is none. It takes no memory.
pub fn first_input<R>(member: &RelationMember<R>) -> Option<&R>
    ensures { option_map (λ input. input.now) result ≡ inputs.first_of member.now }
{
    match member {
        RelationMember::Project(it) => Some(it.input.get()),
        RelationMember::Filter(it) => Some(it.input.get()),
        RelationMember::Join(it) => Some(it.left.get()),
        RelationMember::SetOperation(it) => Some(it.left_input.get()),
        RelationMember::Sort(it) => Some(it.input.get()),
        RelationMember::Limit(it) => Some(it.input.get()),
        RelationMember::Aggregate(it) => Some(it.input.get()),
        RelationMember::Offset(it) => Some(it.input.get()),
        RelationMember::Deduplicate(it) => Some(it.input.get()),
        RelationMember::SubqueryAlias(it) => Some(it.input.get()),
        RelationMember::ToDf(it) => Some(it.input.get()),
        RelationMember::WithColumnsRenamed(it) => Some(it.input.get()),
        RelationMember::DropColumns(it) => Some(it.input.get()),
        RelationMember::WithColumns(it) => Some(it.input.get()),
        RelationMember::Read(_)
        | RelationMember::LocalRelation(_)
        | RelationMember::Range(_)
        | RelationMember::Other(_) => None,
    }
}

/// The right input of two; `None` where there is none. It takes no memory.
pub fn second_input<R>(member: &RelationMember<R>) -> Option<&R>
    ensures { option_map (λ input. input.now) result ≡ inputs.second_of member.now }
{
    match member {
        RelationMember::Join(it) => Some(it.right.get()),
        RelationMember::SetOperation(it) => Some(it.right_input.get()),
        RelationMember::Read(_)
        | RelationMember::Project(_)
        | RelationMember::Filter(_)
        | RelationMember::Sort(_)
        | RelationMember::Limit(_)
        | RelationMember::Aggregate(_)
        | RelationMember::LocalRelation(_)
        | RelationMember::Offset(_)
        | RelationMember::Deduplicate(_)
        | RelationMember::Range(_)
        | RelationMember::SubqueryAlias(_)
        | RelationMember::ToDf(_)
        | RelationMember::WithColumnsRenamed(_)
        | RelationMember::DropColumns(_)
        | RelationMember::WithColumns(_)
        | RelationMember::Other(_) => None,
    }
}
