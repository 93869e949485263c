use expression_relations::{Aggregate, DropColumns, Filter, Join, Project, Sort, WithColumns};
use plain_relations::{
    Deduplicate, Limit, Offset, SetOperation, SubqueryAlias, ToDf, WithColumnsRenamed,
};
use relation_parts::{LocalRelation, Range, Read};

/// What gives a relation its rows: the member of its oneof (`relations.proto`, Relation).
#[derive(Debug, Drop)]
pub enum RelationMember<R> {
    Read(Read),
    Project(Project<R>),
    Filter(Filter<R>),
    Join(Join<R>),
    SetOperation(SetOperation<R>),
    Sort(Sort<R>),
    Limit(Limit<R>),
    Aggregate(Aggregate<R>),
    LocalRelation(LocalRelation),
    Offset(Offset<R>),
    Deduplicate(Deduplicate<R>),
    Range(Range),
    SubqueryAlias(SubqueryAlias<R>),
    ToDf(ToDf<R>),
    WithColumnsRenamed(WithColumnsRenamed<R>),
    /// The member `drop`.
    DropColumns(DropColumns<R>),
    WithColumns(WithColumns<R>),
    /// A relation outside the profile, by its field number; 0 where no relation is there.
    Other(u32),
}
