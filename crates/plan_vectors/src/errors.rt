use plan_text::TextFault;
use resolve_names::{ErrorName, ResolveStop};
use std::alloc::{AllocError, Global};

/// The name of an error of analysis.
fn name_of(name: ErrorName) -> &'static str {
    match name {
        ErrorName::UnresolvedColumn => "UNRESOLVED_COLUMN",
        ErrorName::AmbiguousReference => "AMBIGUOUS_REFERENCE",
        ErrorName::BadIdentifier => "BAD_IDENTIFIER",
        ErrorName::TableOrViewNotFound => "TABLE_OR_VIEW_NOT_FOUND",
        ErrorName::CannotResolvePlanId => "CANNOT_RESOLVE_PLAN_ID",
        ErrorName::UnresolvedRoutine => "UNRESOLVED_ROUTINE",
        ErrorName::DatatypeMismatch => "DATATYPE_MISMATCH",
        ErrorName::WrongNumArgs => "WRONG_NUM_ARGS",
        ErrorName::InvalidAggregate => "INVALID_AGGREGATE",
        ErrorName::MissingAggregation => "MISSING_AGGREGATION",
        ErrorName::DuplicateColumn => "DUPLICATE_COLUMN",
        ErrorName::NumColumnsMismatch => "NUM_COLUMNS_MISMATCH",
        ErrorName::IncompatibleColumnType => "INCOMPATIBLE_COLUMN_TYPE",
        ErrorName::BadLocalData => "BAD_LOCAL_DATA",
        ErrorName::BadNumber => "BAD_NUMBER",
        ErrorName::TooManyColumns => "TOO_MANY_COLUMNS",
        ErrorName::NameTooLong => "NAME_TOO_LONG",
        ErrorName::Unsupported => "UNSUPPORTED",
    }
}

/// An error of analysis with its detail, in quotes; or want of memory.
pub fn stop_text(alloc: Global, stop: &ResolveStop) -> Result<String, AllocError> {
    match stop {
        ResolveStop::Analysis(error) => {
            let name = name_of(error.name);
            let detail = error.detail.as_str();
            if detail.is_empty() && error.name == ErrorName::BadLocalData {
                return String::from_str(alloc, name);
            }
            format!(in alloc; "{name} \"{detail}\"")
        }
        ResolveStop::OutOfMemory => String::from_str(alloc, "OUT_OF_MEMORY"),
    }
}

/// The line of why a text is no pipeline.
pub fn fault_text(alloc: Global, fault: &TextFault) -> Result<String, AllocError> {
    match fault {
        TextFault::Unexpected { at } => format!(in alloc; "  -> Unexpected {at}\n"),
        TextFault::TooLong { limit } => format!(in alloc; "  -> TooLong {limit}\n"),
        TextFault::TooDeep { at } => format!(in alloc; "  -> TooDeep {at}\n"),
        TextFault::OutOfMemory => String::from_str(alloc, "  -> OUT_OF_MEMORY\n"),
    }
}
