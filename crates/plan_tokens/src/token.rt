use crate::Keyword;
use cn_base::Text;

/// Decimal digits that stand in a row.
#[derive(Clone, Copy, Debug, PartialEq, Eq)]
pub struct Number {
    /// The number that they tell; 2^64 - 1 where it is above that.
    pub value: u64,
    /// Whether the whole word `L`, which marks a long, stands directly behind them.
    pub long: bool,
}

/// A text in single quotes.
#[derive(Debug, Drop)]
pub struct Quotation {
    pub text: Text,
    /// The day whose date, as YYYY-MM-DD, the text is, where it is one from 0001-01-01 to 9999-12-31.
    pub day: Option<i32>,
}

/// A sign of the grammar, but for `-`.
#[derive(Clone, Copy, Debug, PartialEq, Eq)]
pub enum Sign {
    /// `|`
    Bar,
    /// `,`
    Comma,
    /// `.`
    Dot,
    /// `@`
    At,
    /// `(`
    Open,
    /// `)`
    Close,
    /// `+`
    Plus,
    /// `*`
    Star,
    /// `%`
    Percent,
    /// `=`
    Equal,
    /// `!=`
    NotEqual,
    /// `<`
    Less,
    /// `<=`
    LessEqual,
    /// `<=>`
    SameOrNull,
    /// `>`
    Greater,
    /// `>=`
    GreaterEqual,
}

/// A token.
#[derive(Debug, Drop)]
pub enum Token {
    /// A word of the grammar.
    Word(Keyword),
    /// Another word, or a name in backquotes, each doubled backquote in it once.
    Name(Text),
    Quotation(Quotation),
    Number(Number),
    /// A `-`, and the number whose digits stand directly behind it, where there is one.
    Minus(Option<Number>),
    Sign(Sign),
    /// A byte that begins no token: a quote that never ends, or a byte that no text of the grammar has outside quotes.
    Nothing,
    /// The end of the text.
    End,
}

/// A token and where it begins, in bytes.
#[derive(Debug, Drop)]
pub struct Placed {
    pub token: Token,
    pub at: usize,
}
