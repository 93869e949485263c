ghost use Rattle.std.specs.Prelude.{◌≡◌, ◌≢◌, IfOk};
ghost use Rattle.resolve_names.specs.declared.error.ResolveStop.TheVariants.{Analysis, OutOfMemory as no_memory};
ghost use Rattle.resolve_names.specs.Refusals.{refusal};

use cn_base::{OutOfMemory, Text};
use std::alloc::Global;
use std::marker::Model;
use std::sync::Arc;
use thiserror::Error;

/// The names of the errors of analysis. Each but `Unsupported` is answered as an invalid argument.
#[derive(Clone, Copy, Debug, PartialEq, Eq)]
pub enum ErrorName {
    /// No column has the name. The detail is the identifier as it was given.
    UnresolvedColumn,
    /// Several columns, or several relations with the plan id, have the name. The detail is the identifier as it was given.
    AmbiguousReference,
    /// A text is no identifier. The detail is the text.
    BadIdentifier,
    /// No table has the name. The detail is the identifier as it was given.
    TableOrViewNotFound,
    /// No relation below has the plan id. The detail is the id.
    CannotResolvePlanId,
    /// No function has the name. The detail is the name in lower case.
    UnresolvedRoutine,
    /// An expression has another type than is asked for. The detail is the function in lower case, `cast`, `filter`, `join`, or `null`
    /// for a literal without a type.
    DatatypeMismatch,
    /// A function is called with another number of arguments. The detail is its name in lower case.
    WrongNumArgs,
    /// An aggregate function is called where none is allowed. The detail is its name in lower case.
    InvalidAggregate,
    /// A column stands outside every aggregate call and is not grouped by. The detail is its name.
    MissingAggregation,
    /// Two columns have one name. The detail is the name.
    DuplicateColumn,
    /// Two numbers of columns differ. The detail is the two numbers with a space.
    NumColumnsMismatch,
    /// Two columns of a set operation have different types. The detail is the column's place, counted from 1.
    IncompatibleColumnType,
    /// Rows that came with the plan can't be read, or don't fit their schema. There is no detail.
    BadLocalData,
    /// A number is out of its range. The detail is the number.
    BadNumber,
    /// There are more columns than a relation may have. The detail is their number.
    TooManyColumns,
    /// A name is longer than a column's may be. The detail is its number of bytes.
    NameTooLong,
    /// A form is outside the profile; it is answered as unimplemented. The detail is `relation`, `expression`, `command` or `option`, a
    /// space and the number.
    Unsupported,
}

/// An error of analysis. Several owners share its detail.
#[derive(Debug, Drop)]
pub struct AnalysisError {
    pub name: ErrorName,
    pub detail: Arc<Text>,
}

impl Model for AnalysisError {
    ghost use Rattle.std.specs.Arc.{arc_value};
    ghost use Rattle.resolve_names.specs.Refusals.{Refusal};

    ghost Value = { Refusal };

    ghost view = { λ e. record { name = e.name; detail = arc_value e.detail } };
}

impl AnalysisError {
    /// The error of this name and detail.
    pub fn new(alloc: Global, name: ErrorName, detail: Text) -> Result<AnalysisError, OutOfMemory>
        ensures { IfOk result (λ e. e ≡ refusal name detail) }
    {
        Ok(AnalysisError {
            name,
            detail: Arc::new(alloc, detail)?,
        })
    }

    /// Another owner of the same detail, which copies none. It takes no memory; it is refused where the count of owners is full.
    pub fn share(&self) -> Result<AnalysisError, OutOfMemory>
        ensures { IfOk result (λ e. e ≡ self.now) }
    {
        let detail = Arc::try_clone(&self.detail)?;
        Ok(AnalysisError {
            name: self.name,
            detail,
        })
    }
}

/// The error of this name and detail, or want of memory for it.
pub fn analysis_stop(alloc: Global, name: ErrorName, detail: &str) -> ResolveStop
    ensures { result ≢ no_memory → result ≡ Analysis (refusal name detail.now) }
{
    match stop_of(alloc, name, detail) {
        Ok(error) => ResolveStop::Analysis(error),
        Err(_) => ResolveStop::OutOfMemory,
    }
}

fn stop_of(alloc: Global, name: ErrorName, detail: &str) -> Result<AnalysisError, OutOfMemory>
    ensures { IfOk result (λ e. e ≡ refusal name detail.now) }
{
    let detail = Text::of(alloc, detail)?;
    AnalysisError::new(alloc, name, detail)
}

/// Why a plan was not resolved.
#[derive(Debug, Drop, Error)]
pub enum ResolveStop {
    /// The first error of its analysis.
    #[error("the plan has an error")]
    Analysis(AnalysisError),
    /// There was no memory.
    #[error("out of memory")]
    OutOfMemory,
}

impl From<OutOfMemory> for ResolveStop {
    ghost from_gives = { λ _ e. e ≡ no_memory };

    fn from(_error: OutOfMemory) -> ResolveStop {
        ResolveStop::OutOfMemory
    }
}
