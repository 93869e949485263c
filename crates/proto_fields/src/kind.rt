/// A message of the profile, by the name of its public message file. Messages without fields in the profile share `Empty`.
#[derive(Clone, Copy, Debug, PartialEq, Eq)]
pub enum MessageKind {
    Empty,
    UserContext,
    KeyValue,
    ExecutePlanRequest,
    RequestOption,
    ReattachOptions,
    ExecutePlanResponse,
    ArrowBatch,
    ReattachExecuteRequest,
    ReleaseExecuteRequest,
    ReleaseUntil,
    ReleaseExecuteResponse,
    AnalyzePlanRequest,
    /// The members `schema` and `is_streaming` of an AnalyzePlanRequest, which hold a plan.
    AnalyzedPlan,
    AnalyzePlanResponse,
    SchemaAnswer,
    IsStreamingAnswer,
    SparkVersionAnswer,
    ConfigRequest,
    ConfigOperation,
    /// The operations `set` and `get_with_default`.
    ConfigPairs,
    /// The operations `get`, `get_option`, `unset` and `is_modifiable`.
    ConfigKeys,
    /// The operation `get_all`.
    ConfigPrefix,
    ConfigResponse,
    InterruptRequest,
    InterruptResponse,
    Plan,
    Relation,
    RelationCommon,
    Read,
    NamedTable,
    Project,
    Filter,
    Join,
    SetOperation,
    Sort,
    Limit,
    Offset,
    Aggregate,
    LocalRelation,
    Deduplicate,
    Range,
    SubqueryAlias,
    ToDf,
    WithColumnsRenamed,
    /// An entry of the map of `WithColumnsRenamed`.
    RenameEntry,
    Drop,
    WithColumns,
    Expression,
    Literal,
    UnresolvedAttribute,
    UnresolvedFunction,
    UnresolvedStar,
    Alias,
    Cast,
    SortOrder,
    DataType,
    StructType,
    StructField,
    Command,
    WriteOperation,
    SaveTable,
}

/// What the payload of a record is.
#[derive(Clone, Copy, Debug, PartialEq, Eq)]
pub enum PayloadKind {
    /// A message of this kind.
    Message(MessageKind),
    /// A text, which must be UTF-8.
    Text,
    /// Plain bytes, or a field outside the profile.
    Other,
}
