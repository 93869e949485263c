//! Laws over the definitions of rules of two relations, each the contract of a function that does nothing.

ghost use Rattle.resolve_ids.specs.PairLaws.{JoinedAlike, CombinedAlike};

/// Law: `join` means the same under other ids.
pub fn relations_are_joined_alike<I, J>()
    ensures { JoinedAlike I J }
{}

/// Law: `set_op` means the same under other ids.
pub fn relations_are_combined_alike<I, J>()
    ensures { CombinedAlike I J }
{}
