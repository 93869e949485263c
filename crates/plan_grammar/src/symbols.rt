use crate::symbol::{
    ExpressionSymbol, PipelineSymbol, StepSymbol, Symbol, Test, UnitSymbol, ValuesSymbol,
};
use plan_tokens::{Keyword, Sign};

// Symbols by short names, so that a production stands in one line.

pub const SOURCE: Symbol = Symbol::Pipeline(PipelineSymbol::Source);

pub const FINISH: Symbol = Symbol::Pipeline(PipelineSymbol::Finish);

pub const LONG: Symbol = Symbol::Pipeline(PipelineSymbol::Long);

pub const NAME: Symbol = Symbol::Pipeline(PipelineSymbol::Name);

pub const STEP_OR_WRITE: Symbol = Symbol::Pipeline(PipelineSymbol::StepOrWrite);

pub const MODE: Symbol = Symbol::Pipeline(PipelineSymbol::Mode);

pub const STEPS: Symbol = Symbol::Pipeline(PipelineSymbol::Steps);

pub const NAMES: Symbol = Symbol::Pipeline(PipelineSymbol::Names);

pub const NEGATIVE_INTEGER: Symbol = Symbol::Pipeline(PipelineSymbol::NegativeInteger);

pub const NEGATIVE_LONG: Symbol = Symbol::Pipeline(PipelineSymbol::NegativeLong);

pub const INTEGER: Symbol = Symbol::Pipeline(PipelineSymbol::Integer);

pub const NESTED: Symbol = Symbol::Pipeline(PipelineSymbol::Nested);

pub const STEP: Symbol = Symbol::Step(StepSymbol::Step);

pub const ASSIGNMENT: Symbol = Symbol::Step(StepSymbol::Assignment);

pub const ASSIGNMENTS: Symbol = Symbol::Step(StepSymbol::Assignments);

pub const RENAMING: Symbol = Symbol::Step(StepSymbol::Renaming);

pub const RENAMINGS: Symbol = Symbol::Step(StepSymbol::Renamings);

pub const KEY: Symbol = Symbol::Step(StepSymbol::Key);

pub const KEYS: Symbol = Symbol::Step(StepSymbol::Keys);

pub const DISTINCT_NAMES: Symbol = Symbol::Step(StepSymbol::DistinctNames);

pub const GROUP_KEYS: Symbol = Symbol::Step(StepSymbol::GroupKeys);

pub const JOIN_KIND: Symbol = Symbol::Step(StepSymbol::JoinKind);

pub const JOIN_END: Symbol = Symbol::Step(StepSymbol::JoinEnd);

pub const ALL: Symbol = Symbol::Step(StepSymbol::All);

pub const DIRECTION: Symbol = Symbol::Step(StepSymbol::Direction);

pub const NULL_ORDER: Symbol = Symbol::Step(StepSymbol::NullOrder);

pub const NULL_PLACE: Symbol = Symbol::Step(StepSymbol::NullPlace);

pub const ITEM: Symbol = Symbol::Expression(ExpressionSymbol::Item);

pub const ITEMS: Symbol = Symbol::Expression(ExpressionSymbol::Items);

pub const EXPR: Symbol = Symbol::Expression(ExpressionSymbol::Expr);

pub const EXPRS: Symbol = Symbol::Expression(ExpressionSymbol::Exprs);

pub const ITEM_NAME: Symbol = Symbol::Expression(ExpressionSymbol::ItemName);

pub const AS: Symbol = Symbol::Expression(ExpressionSymbol::As);

pub const OPERATORS: Symbol = Symbol::Expression(ExpressionSymbol::Operators);

pub const ITEM_PART: Symbol = Symbol::Expression(ExpressionSymbol::ItemPart);

pub const PRODUCTS: Symbol = Symbol::Expression(ExpressionSymbol::Products);

pub const SUMS: Symbol = Symbol::Expression(ExpressionSymbol::Sums);

pub const COMPARISON: Symbol = Symbol::Expression(ExpressionSymbol::Comparison);

pub const ANDS: Symbol = Symbol::Expression(ExpressionSymbol::Ands);

pub const ORS: Symbol = Symbol::Expression(ExpressionSymbol::Ors);

pub const CONJ: Symbol = Symbol::Expression(ExpressionSymbol::Conj);

pub const NEG: Symbol = Symbol::Expression(ExpressionSymbol::Neg);

pub const SUM: Symbol = Symbol::Expression(ExpressionSymbol::Sum);

pub const IS_NULL: Symbol = Symbol::Expression(ExpressionSymbol::IsNull);

pub const PROD: Symbol = Symbol::Expression(ExpressionSymbol::Prod);

pub const ARGUMENTS: Symbol = Symbol::Unit(UnitSymbol::Arguments);

pub const PARTS: Symbol = Symbol::Unit(UnitSymbol::Parts);

pub const UNIT: Symbol = Symbol::Unit(UnitSymbol::Unit);

pub const NEGATIVE_LITERAL: Symbol = Symbol::Unit(UnitSymbol::NegativeLiteral);

pub const KIND: Symbol = Symbol::Unit(UnitSymbol::Kind);

pub const DATE_TEXT: Symbol = Symbol::Unit(UnitSymbol::DateText);

pub const PLAN_NUMBER: Symbol = Symbol::Unit(UnitSymbol::PlanNumber);

pub const UNIT_NAME: Symbol = Symbol::Unit(UnitSymbol::UnitName);

pub const PART: Symbol = Symbol::Unit(UnitSymbol::Part);

pub const ARGUMENT_LIST: Symbol = Symbol::Unit(UnitSymbol::ArgumentList);

pub const COLUMN: Symbol = Symbol::Values(ValuesSymbol::Column);

pub const COLUMNS: Symbol = Symbol::Values(ValuesSymbol::Columns);

pub const ROWS: Symbol = Symbol::Values(ValuesSymbol::Rows);

pub const CELL: Symbol = Symbol::Values(ValuesSymbol::Cell);

pub const MINUS_CELL: Symbol = Symbol::Values(ValuesSymbol::MinusCell);

pub const DATE_CELL: Symbol = Symbol::Values(ValuesSymbol::DateCell);

pub const CELL_END: Symbol = Symbol::Values(ValuesSymbol::CellEnd);

pub const COLUMN_KIND: Symbol = Symbol::Values(ValuesSymbol::ColumnKind);

pub const OPEN_SIGN: Symbol = Symbol::Need(Test::Sign(Sign::Open));

pub const CLOSE_SIGN: Symbol = Symbol::Need(Test::Sign(Sign::Close));

pub const AGG_WORD: Symbol = Symbol::Need(Test::Word(Keyword::Agg));

pub const EQUAL_SIGN: Symbol = Symbol::Need(Test::Sign(Sign::Equal));

pub const AS_WORD: Symbol = Symbol::Need(Test::Word(Keyword::As));

pub const NULL_WORD: Symbol = Symbol::Need(Test::Word(Keyword::Null));

pub const LONG_MARK: Symbol = Symbol::Need(Test::Mark);

pub const DOT_SIGN: Symbol = Symbol::Need(Test::Sign(Sign::Dot));
