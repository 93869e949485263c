use relation_members::{RelationCommon, RelationMember};

/// A relation: what gives rows (`relations.proto`, Relation).
#[derive(Debug, Drop)]
pub struct Relation {
    pub common: Option<RelationCommon>,
    /// `Other(0)` where no relation is there.
    pub member: RelationMember<Relation>,
}
