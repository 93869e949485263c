use cn_base::List;
use cn_types::DataType;
use plan_tokens::{Keyword, Sign, Token};

/// Symbols of pipelines, names and numbers.
#[derive(Clone, Copy, Debug, PartialEq, Eq)]
pub enum PipelineSymbol {
    /// source { "|" step } [ "|" finish ]
    Whole,
    /// "range" int int int | "table" name | "values" "(" column { "," column } ")" { row }
    Source,
    /// { "|" step } [ "|" ("write" | "insert") name [ mode ] ]
    Finish,
    /// ("write" | "insert") name [ mode ] | step ..
    StepOrWrite,
    /// [ "append" | "overwrite" | "error" | "ignore" ]
    Mode,
    /// "(" source { "|" step } ")"
    Nested,
    /// { "|" step }
    Steps,
    /// name
    Name,
    /// { "," name }
    Names,
    /// int, of 32 bits
    Integer,
    /// the digits behind `-`
    NegativeInteger,
    /// int, of 64 bits
    Long,
    /// the digits behind `-`
    NegativeLong,
}

/// Symbols of steps.
#[derive(Clone, Copy, Debug, PartialEq, Eq)]
pub enum StepSymbol {
    /// the steps
    Step,
    /// name "=" expr
    Assignment,
    /// { "," name "=" expr }
    Assignments,
    /// name "as" name
    Renaming,
    /// { "," name "as" name }
    Renamings,
    /// expr [ "asc" | "desc" ] [ "nulls" ("first" | "last") ]
    Key,
    /// { "," key }
    Keys,
    /// [ "asc" | "desc" ]
    Direction,
    /// [ "nulls" ("first" | "last") ]
    NullOrder,
    /// "first" | "last"
    NullPlace,
    /// [ "on" names ]
    DistinctNames,
    /// [ expr { "," expr } ], before "agg"
    GroupKeys,
    /// kind
    JoinKind,
    /// [ "on" expr | "using" names ]
    JoinEnd,
    /// [ "all" ]
    All,
}

/// Symbols of items and operators.
#[derive(Clone, Copy, Debug, PartialEq, Eq)]
pub enum ExpressionSymbol {
    /// "*" | name "." "*" | expr [ "as" name ]
    Item,
    /// an item behind its first name
    ItemName,
    /// an item behind its first name and `.`
    ItemPart,
    /// { "," item }
    Items,
    /// [ "as" name ]
    As,
    /// what may follow a unit
    Operators,
    /// conj { "or" conj }
    Expr,
    /// { "or" conj }
    Ors,
    /// neg { "and" neg }
    Conj,
    /// { "and" neg }
    Ands,
    /// "not" neg | comp
    Neg,
    /// [ ("=" | "!=" | "<" | "<=" | ">" | ">=" | "<=>") sum | "is" [ "not" ] "null" ]
    Comparison,
    /// [ "not" ] "null"
    IsNull,
    /// prod { ("+" | "-") prod }
    Sum,
    /// { ("+" | "-") prod }
    Sums,
    /// unit { ("*" | "%" | "div") unit }
    Prod,
    /// { ("*" | "%" | "div") unit }
    Products,
    /// { "," expr }
    Exprs,
}

/// Symbols of units of expressions.
#[derive(Clone, Copy, Debug, PartialEq, Eq)]
pub enum UnitSymbol {
    /// unit
    Unit,
    /// the digits behind `-`
    NegativeLiteral,
    /// a text that is a date
    DateText,
    /// int without `-`
    PlanNumber,
    /// a unit behind its first name
    UnitName,
    /// name
    Part,
    /// { "." name }
    Parts,
    /// ( "*" | [ "distinct" ] [ expr { "," expr } ] ) ")"
    Arguments,
    /// [ expr { "," expr } ], before ")"
    ArgumentList,
    /// type
    Kind,
}

/// Symbols of the columns and cells of `values`.
#[derive(Clone, Copy, Debug, PartialEq, Eq)]
pub enum ValuesSymbol {
    /// name type
    Column,
    /// { "," name type }
    Columns,
    /// type
    ColumnKind,
    /// { "(" cell { "," cell } ")" }
    Rows,
    /// cell
    Cell,
    /// the digits of a cell behind `-`
    MinusCell,
    /// the text of a cell behind "date"
    DateCell,
    /// "," cell, or ")" { row }
    CellEnd,
}

/// What a token has to be.
#[derive(Clone, Copy, Debug, PartialEq, Eq)]
pub enum Test {
    /// A word of the grammar.
    Word(Keyword),
    /// A sign.
    Sign(Sign),
    /// A name: a word that the grammar does not reserve, `id` among them, or one in backquotes.
    Name,
    /// Digits that fit 32 bits with a sign.
    Integer,
    /// A `-` directly before digits.
    MinusBeforeDigits,
    /// Digits that fit 32 bits behind a `-`.
    NegativeInteger,
    /// Digits that fit 64 bits with a sign.
    Long,
    /// Digits that fit 64 bits behind a `-`.
    NegativeLong,
    /// A `-`.
    Minus,
    /// A `-` directly before the digits of a literal that fits its type.
    MinusBeforeLiteral,
    /// A `-` that is not directly before digits.
    MinusApart,
    /// Digits without `L` that fit 32 bits.
    IntegerLiteral,
    /// Digits with `L` that fit 64 bits.
    LongLiteral,
    /// The word `L`.
    Mark,
    /// A text in quotes.
    Quotation,
    /// Digits without `L` that fit 32 bits behind a `-`.
    NegativeIntegerLiteral,
    /// Digits with `L` that fit 64 bits behind a `-`.
    NegativeLongLiteral,
    /// A text that is a date.
    DateText,
}

/// What a token is taken for.
#[derive(Clone, Copy, Debug, PartialEq, Eq)]
pub enum Use {
    Nothing,
    NewColumns,
    Name,
    Integer,
    NegativeInteger,
    Long,
    NegativeLong,
    Part,
    IntegerLiteral,
    LongLiteral,
    Text,
    NegativeIntegerLiteral,
    NegativeLongLiteral,
    Date,
    /// A cell of a row.
    Cell(Cell),
}

/// What a cell is.
#[derive(Clone, Copy, Debug, PartialEq, Eq)]
pub enum Cell {
    Null,
    Integer,
    Long,
    /// Digits behind a `-`.
    NegativeInteger,
    /// Digits behind a `-`.
    NegativeLong,
    Text,
    True,
    False,
    Date,
}

/// An operator of two units.
#[derive(Clone, Copy, Debug, PartialEq, Eq)]
pub enum Binary {
    Or,
    And,
    Equal,
    NotEqual,
    Less,
    LessEqual,
    Greater,
    GreaterEqual,
    SameOrNull,
    Plus,
    Minus,
    Times,
    Remainder,
    Div,
}

/// An operator of one unit.
#[derive(Clone, Copy, Debug, PartialEq, Eq)]
pub enum Unary {
    Not,
    IsNotNull,
    IsNull,
    Negative,
}

/// What makes units and items.
#[derive(Clone, Copy, Debug, PartialEq, Eq)]
pub enum UnitAction {
    Star,
    Mark,
    Identifier,
    Attribute,
    StarOf,
    Alias,
    True,
    False,
    Null,
    Cast,
    AttributeOfPlan,
    Call,
    CallDistinct,
}

/// What makes parts of a step.
#[derive(Clone, Copy, Debug, PartialEq, Eq)]
pub enum Part {
    GroupKeys,
    Assign,
    Renaming,
    Order,
}

/// What was chosen.
#[derive(Clone, Copy, Debug, PartialEq, Eq)]
pub enum Choice {
    Append,
    Overwrite,
    ErrorIfExists,
    Ignore,
    NoMode,
    Union,
    Intersect,
    Except,
    Ascending,
    Descending,
    NullsByDirection,
    NullsFirst,
    NullsLast,
    InnerJoin,
    FullJoin,
    LeftJoin,
    RightJoin,
    AntiJoin,
    SemiJoin,
    CrossJoin,
    All,
    NotAll,
}

/// What makes relations and writes.
#[derive(Clone, Copy, Debug, PartialEq, Eq)]
pub enum StepAction {
    Range,
    Read,
    Values,
    Write,
    Insert,
    Filter,
    Project,
    WithColumns,
    Drop,
    Rename,
    ToDf,
    SubqueryAlias,
    Sort,
    Limit,
    Offset,
    Aggregate,
    SetOperation,
    PlanId,
    DeduplicateOn,
    Deduplicate,
    JoinOn,
    JoinUsing,
    JoinAll,
}

/// What is done with what was taken.
#[derive(Clone, Copy, Debug, PartialEq, Eq)]
pub enum Action {
    Binary(Binary),
    Unary(Unary),
    Unit(UnitAction),
    Part(Part),
    Choice(Choice),
    Step(StepAction),
    /// A type is named.
    Kind(DataType),
}

/// A symbol of the grammar.
#[derive(Clone, Copy, Debug, PartialEq, Eq)]
pub enum Symbol {
    Pipeline(PipelineSymbol),
    Step(StepSymbol),
    Expression(ExpressionSymbol),
    Unit(UnitSymbol),
    Values(ValuesSymbol),
    /// A token that passes the test.
    Need(Test),
    /// No token: something is done.
    Act(Action),
    /// No token: a column of this type is added.
    Column(DataType),
    /// No token: a row ends.
    Row,
}

/// The columns of the `values` that are read, and how many cells of the row were taken.
#[derive(Debug, Drop)]
pub struct Columns {
    pub kinds: List<DataType>,
    pub cells: usize,
}

/// A deed of a reader: a token is taken for a use, or something is done.
#[derive(Debug, Drop)]
pub enum Deed {
    Take(Use, Token),
    Act(Action),
    Column(DataType),
    Row,
}
