ghost use Rattle.std.specs.Prelude.{◌≡◌};
ghost use Rattle.std.specs.List.{list_any};
ghost use Rattle.plan_model.specs.Outcomes.{limited, is_too_large};
ghost use Rattle.relation_eval.specs.Given.{rows_of, outcome_of};

use crate::given::{Given, HeldRows};
use cn_types::Row;

/// The greatest number of rows of a relation.
pub(crate) const ROW_LIMIT: usize = 4_194_304;

/// The greatest weight of a row, in bytes.
pub(crate) const WEIGHT_LIMIT: u64 = 8_388_608;

/// The rows within the limits: too many of them come before one that is too large.
#[tactic(auto, unfolding(plan_model::specs::Outcomes::row_limit))]
pub fn limited_rows(rows: HeldRows) -> Given
    ensures { outcome_of result ≡ limited (rows_of rows) }
{
    if rows.as_slice().len() > ROW_LIMIT {
        return Given::TooManyRows;
    }
    if has_large_row(rows.as_slice()) {
        return Given::RowTooLarge;
    }
    Given::Rows(rows)
}

#[tactic(auto, unfolding(plan_model::specs::Outcomes::weight_limit))]
fn has_large_row(rows: &[Row]) -> bool
    ensures { result ≡ list_any is_too_large rows.now }
{
    rows.iter().any(|row| row.weight() > WEIGHT_LIMIT)
}
