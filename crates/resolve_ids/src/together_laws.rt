//! The law over all rules, the contract of a function that does nothing.

ghost use Rattle.resolve_ids.specs.TogetherLaws.{StaySameUnderAnyIds};

/// Law: whichever ids of two types are said to belong together, relations that differ only in such ids make, by each rule, relations within
/// limits that differ only in such ids, or have one error. Such relations have one node and one schema, stay such with a plan id, and are such
/// too where more ids belong together.
pub fn rules_stay_the_same<I, J>()
    ensures { StaySameUnderAnyIds I J }
{}
