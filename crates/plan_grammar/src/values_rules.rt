ghost use Rattle.std.specs.Prelude.{◌≡◌, option_map};
ghost use Rattle.plan_grammar.specs.ValuesRules as rules;

use crate::productions::{Production, goes, takes, takes_for};
use crate::symbol::{Cell, Symbol, Test, Use, ValuesSymbol};
use crate::symbols::{
    CELL, CELL_END, COLUMN, COLUMN_KIND, COLUMNS, DATE_CELL, MINUS_CELL, NAME, ROWS,
};
use crate::tests_of_tokens::passes;
use cn_types::DataType;
use plan_tokens::{Keyword, Sign, Token};

/// What stands for one of these symbols before a token, where a cell of the wanted type comes next.
pub fn values_rule(
    wanted: Option<DataType>,
    symbol: ValuesSymbol,
    token: &Token,
) -> Option<Production>
    ensures { option_map (λ r. (r.0, r.1.now)) result ≡ rules.values_rule wanted symbol token.now }
{
    match symbol {
        // name type
        ValuesSymbol::Column => goes(&[NAME, COLUMN_KIND]),
        ValuesSymbol::Columns => columns_rule(token),
        ValuesSymbol::ColumnKind => column_kind_rule(token),
        ValuesSymbol::Rows => rows_rule(token),
        // cell
        ValuesSymbol::Cell => match wanted {
            Some(kind) => cell_rule(kind, token),
            None => None,
        },
        // the digits of a cell behind `-`
        ValuesSymbol::MinusCell => match wanted {
            Some(kind) => minus_cell_rule(kind, token),
            None => None,
        },
        // the text of a cell behind "date"
        ValuesSymbol::DateCell => {
            if passes(Test::DateText, token) {
                return takes_for(Use::Cell(Cell::Date), &[CELL_END]);
            }
            None
        }
        // "," cell, or ")" { row }
        ValuesSymbol::CellEnd => match wanted {
            Some(_) => next_cell_rule(token),
            None => row_end_rule(token),
        },
    }
}

/// { "," name type }
fn columns_rule(token: &Token) -> Option<Production>
    ensures { option_map (λ r. (r.0, r.1.now)) result ≡ rules.columns_rule token.now }
{
    if passes(Test::Sign(Sign::Comma), token) {
        return takes(&[COLUMN, COLUMNS]);
    }
    goes(&[])
}

/// { "(" cell { "," cell } ")" }
fn rows_rule(token: &Token) -> Option<Production>
    ensures { option_map (λ r. (r.0, r.1.now)) result ≡ rules.rows_rule token.now }
{
    if passes(Test::Sign(Sign::Open), token) {
        return takes(&[CELL]);
    }
    goes(&[])
}

/// The type of a column.
fn column_kind_rule(token: &Token) -> Option<Production>
    ensures { option_map (λ r. (r.0, r.1.now)) result ≡ rules.column_kind_rule token.now }
{
    if passes(Test::Word(Keyword::Integer), token) {
        return takes(&[Symbol::Column(DataType::Integer)]);
    }
    if passes(Test::Word(Keyword::Long), token) {
        return takes(&[Symbol::Column(DataType::Long)]);
    }
    if passes(Test::Word(Keyword::String), token) {
        return takes(&[Symbol::Column(DataType::Text)]);
    }
    if passes(Test::Word(Keyword::Boolean), token) {
        return takes(&[Symbol::Column(DataType::Boolean)]);
    }
    if passes(Test::Word(Keyword::Date), token) {
        return takes(&[Symbol::Column(DataType::Date)]);
    }
    None
}

/// A cell of a column of this type.
fn cell_rule(kind: DataType, token: &Token) -> Option<Production>
    ensures { option_map (λ r. (r.0, r.1.now)) result ≡ rules.cell_rule kind token.now }
{
    if passes(Test::Word(Keyword::Null), token) {
        return takes_for(Use::Cell(Cell::Null), &[CELL_END]);
    }
    kind_rule(kind, token)
}

/// A cell of a column of this type that is no null.
fn kind_rule(kind: DataType, token: &Token) -> Option<Production>
    ensures { option_map (λ r. (r.0, r.1.now)) result ≡ rules.kind_rule kind token.now }
{
    match kind {
        DataType::Integer => {
            if passes(Test::Integer, token) {
                return takes_for(Use::Cell(Cell::Integer), &[CELL_END]);
            }
            minus_rule(token)
        }
        DataType::Long => {
            if passes(Test::Long, token) {
                return takes_for(Use::Cell(Cell::Long), &[CELL_END]);
            }
            minus_rule(token)
        }
        DataType::Text => {
            if passes(Test::Quotation, token) {
                return takes_for(Use::Cell(Cell::Text), &[CELL_END]);
            }
            None
        }
        DataType::Boolean => {
            if passes(Test::Word(Keyword::True), token) {
                return takes_for(Use::Cell(Cell::True), &[CELL_END]);
            }
            if passes(Test::Word(Keyword::False), token) {
                return takes_for(Use::Cell(Cell::False), &[CELL_END]);
            }
            None
        }
        DataType::Date => {
            if passes(Test::Word(Keyword::Date), token) {
                return takes(&[DATE_CELL]);
            }
            None
        }
    }
}

fn minus_rule(token: &Token) -> Option<Production>
    ensures { option_map (λ r. (r.0, r.1.now)) result ≡ rules.minus_rule token.now }
{
    if passes(Test::Minus, token) {
        return takes(&[MINUS_CELL]);
    }
    None
}

/// The digits of a cell behind `-`.
fn minus_cell_rule(kind: DataType, token: &Token) -> Option<Production>
    ensures { option_map (λ r. (r.0, r.1.now)) result ≡ rules.minus_cell_rule kind token.now }
{
    match kind {
        DataType::Integer => {
            if passes(Test::NegativeInteger, token) {
                return takes_for(Use::Cell(Cell::NegativeInteger), &[CELL_END]);
            }
            None
        }
        DataType::Long => {
            if passes(Test::NegativeLong, token) {
                return takes_for(Use::Cell(Cell::NegativeLong), &[CELL_END]);
            }
            None
        }
        DataType::Text => None,
        DataType::Boolean => None,
        DataType::Date => None,
    }
}

fn next_cell_rule(token: &Token) -> Option<Production>
    ensures { option_map (λ r. (r.0, r.1.now)) result ≡ rules.next_cell_rule token.now }
{
    if passes(Test::Sign(Sign::Comma), token) {
        return takes(&[CELL]);
    }
    None
}

fn row_end_rule(token: &Token) -> Option<Production>
    ensures { option_map (λ r. (r.0, r.1.now)) result ≡ rules.row_end_rule token.now }
{
    if passes(Test::Sign(Sign::Close), token) {
        return takes(&[Symbol::Row, ROWS]);
    }
    None
}
