ghost use Rattle.std.specs.Prelude.{◌≡◌};
ghost use Rattle.resolve_joins.specs.Joins as joins;

use plan_model::JoinKind;

/// The kind of a number.
#[tactic(auto, unfolding(crate::specs::Joins::kind_numbered))]
pub(crate) fn kind_numbered(number: i32) -> Option<JoinKind>
    ensures { result ≡ joins.kind_numbered number }
{
    match number {
        1 => Some(JoinKind::Inner),
        2 => Some(JoinKind::Full),
        3 => Some(JoinKind::Left),
        4 => Some(JoinKind::Right),
        5 => Some(JoinKind::Anti),
        6 => Some(JoinKind::Semi),
        7 => Some(JoinKind::Cross),
        _ => None,
    }
}

/// Whether the left's columns are nulls beside a row of the right that matches none.
pub(crate) fn has_left_nulls(kind: JoinKind) -> bool
    ensures { result ≡ joins.has_left_nulls kind }
{
    match kind {
        JoinKind::Full | JoinKind::Right => true,
        JoinKind::Inner | JoinKind::Left | JoinKind::Anti | JoinKind::Semi | JoinKind::Cross => {
            false
        }
    }
}

/// Whether the right's columns are nulls beside a row of the left that matches none.
pub(crate) fn has_right_nulls(kind: JoinKind) -> bool
    ensures { result ≡ joins.has_right_nulls kind }
{
    match kind {
        JoinKind::Full | JoinKind::Left => true,
        JoinKind::Inner | JoinKind::Right | JoinKind::Anti | JoinKind::Semi | JoinKind::Cross => {
            false
        }
    }
}

/// Whether the rows have the right's columns.
pub(crate) fn has_right(kind: JoinKind) -> bool
    ensures { result ≡ joins.has_right kind }
{
    match kind {
        JoinKind::Anti | JoinKind::Semi => false,
        JoinKind::Inner | JoinKind::Full | JoinKind::Left | JoinKind::Right | JoinKind::Cross => {
            true
        }
    }
}

/// An inner join without a condition is a cross join.
pub(crate) fn kind_without(kind: JoinKind) -> JoinKind
    ensures { result ≡ joins.kind_without kind }
{
    match kind {
        JoinKind::Inner | JoinKind::Cross => JoinKind::Cross,
        JoinKind::Full => JoinKind::Full,
        JoinKind::Left => JoinKind::Left,
        JoinKind::Right => JoinKind::Right,
        JoinKind::Anti => JoinKind::Anti,
        JoinKind::Semi => JoinKind::Semi,
    }
}

/// Whether a join of this kind can't have a condition and keys as it has them.
pub(crate) fn clash(kind: JoinKind, conditioned: bool, keyed: bool) -> bool
    ensures { result ≡ joins.clash kind conditioned keyed }
{
    if conditioned && keyed {
        return true;
    }
    is_cross(kind) && (conditioned || keyed)
}

fn is_cross(kind: JoinKind) -> bool
    ensures { result ≡ joins.is_cross kind }
{
    match kind {
        JoinKind::Cross => true,
        JoinKind::Inner
        | JoinKind::Full
        | JoinKind::Left
        | JoinKind::Right
        | JoinKind::Anti
        | JoinKind::Semi => false,
    }
}
