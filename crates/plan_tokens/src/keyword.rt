ghost use Rattle.std.specs.Prelude.{◌≡◌, ◌≢◌, length, IfSome, IsNone};
ghost use Rattle.plan_tokens.specs.Words.{spelled_word, keyword_of};
ghost use Rattle.plan_tokens.specs.declared.keyword.Keyword.{Keyword as AnyKeyword};

/// A word of the grammar. All but `id` are reserved: a name that is spelled so stands in backquotes.
#[derive(Clone, Copy, Debug, PartialEq, Eq)]
pub enum Keyword {
    Range,
    Table,
    Values,
    Where,
    Select,
    With,
    Drop,
    Rename,
    As,
    Names,
    Alias,
    Sort,
    Limit,
    Offset,
    Distinct,
    On,
    Group,
    Agg,
    Join,
    Using,
    Union,
    Intersect,
    Except,
    All,
    Id,
    Write,
    Insert,
    Append,
    Overwrite,
    Error,
    Ignore,
    Inner,
    Full,
    Left,
    Right,
    Anti,
    Semi,
    Cross,
    Asc,
    Desc,
    Nulls,
    First,
    Last,
    Or,
    And,
    Not,
    Is,
    Null,
    True,
    False,
    Date,
    Cast,
    Div,
    Integer,
    Long,
    String,
    Boolean,
}

impl Keyword {
    /// The word of the grammar that is spelled so, in lower case.
    #[tactic(auto, using(crate::proofs::WordFacts::keyword_absent))]
    pub fn of(word: &str) -> Option<Keyword>
        ensures { result ≡ keyword_of word.now }
    {
        match spelled(word) {
            Some(keyword) => Some(keyword),
            None => None,
        }
    }
}

/// The word that is spelled so. Words are compared with those of their length alone.
#[tactic(auto, using(crate::proofs::WordFacts::of_length, crate::proofs::WordFacts::of_no_length))]
fn spelled(word: &str) -> Option<Keyword>
    ensures found { IfSome result (λ keyword. spelled_word keyword ≡ word.now) }
    ensures none { IsNone result → (keyword : AnyKeyword) → spelled_word keyword ≢ word.now }
{
    let size = word.len();
    if size == 2 {
        return of_two(word);
    }
    if size == 3 {
        return of_three(word);
    }
    if size == 4 {
        return of_four(word);
    }
    if size == 5 {
        return of_five(word);
    }
    if size == 6 {
        return of_six(word);
    }
    if size == 7 {
        return of_seven(word);
    }
    if size == 8 {
        return of_eight(word);
    }
    if size == 9 {
        return of_nine(word);
    }
    None
}

fn of_two(word: &str) -> Option<Keyword>
    ensures found { IfSome result (λ keyword. spelled_word keyword ≡ word.now) }
    ensures none { IsNone result → (keyword : AnyKeyword) → length (spelled_word keyword) ≡ 2 → spelled_word keyword ≢ word.now }
{
    match word {
        "as" => Some(Keyword::As),
        "on" => Some(Keyword::On),
        "id" => Some(Keyword::Id),
        "or" => Some(Keyword::Or),
        "is" => Some(Keyword::Is),
        _ => None,
    }
}

fn of_three(word: &str) -> Option<Keyword>
    ensures found { IfSome result (λ keyword. spelled_word keyword ≡ word.now) }
    ensures none { IsNone result → (keyword : AnyKeyword) → length (spelled_word keyword) ≡ 3 → spelled_word keyword ≢ word.now }
{
    match word {
        "agg" => Some(Keyword::Agg),
        "all" => Some(Keyword::All),
        "asc" => Some(Keyword::Asc),
        "and" => Some(Keyword::And),
        "not" => Some(Keyword::Not),
        "div" => Some(Keyword::Div),
        _ => None,
    }
}

fn of_four(word: &str) -> Option<Keyword>
    ensures found { IfSome result (λ keyword. spelled_word keyword ≡ word.now) }
    ensures none { IsNone result → (keyword : AnyKeyword) → length (spelled_word keyword) ≡ 4 → spelled_word keyword ≢ word.now }
{
    match word {
        "with" => Some(Keyword::With),
        "drop" => Some(Keyword::Drop),
        "sort" => Some(Keyword::Sort),
        "join" => Some(Keyword::Join),
        "full" => Some(Keyword::Full),
        "left" => Some(Keyword::Left),
        "anti" => Some(Keyword::Anti),
        "semi" => Some(Keyword::Semi),
        "desc" => Some(Keyword::Desc),
        "last" => Some(Keyword::Last),
        "null" => Some(Keyword::Null),
        "true" => Some(Keyword::True),
        "date" => Some(Keyword::Date),
        "cast" => Some(Keyword::Cast),
        "long" => Some(Keyword::Long),
        _ => None,
    }
}

fn of_five(word: &str) -> Option<Keyword>
    ensures found { IfSome result (λ keyword. spelled_word keyword ≡ word.now) }
    ensures none { IsNone result → (keyword : AnyKeyword) → length (spelled_word keyword) ≡ 5 → spelled_word keyword ≢ word.now }
{
    match word {
        "range" => Some(Keyword::Range),
        "table" => Some(Keyword::Table),
        "where" => Some(Keyword::Where),
        "names" => Some(Keyword::Names),
        "alias" => Some(Keyword::Alias),
        "limit" => Some(Keyword::Limit),
        "group" => Some(Keyword::Group),
        "using" => Some(Keyword::Using),
        "union" => Some(Keyword::Union),
        "write" => Some(Keyword::Write),
        "error" => Some(Keyword::Error),
        "inner" => Some(Keyword::Inner),
        "right" => Some(Keyword::Right),
        "cross" => Some(Keyword::Cross),
        "nulls" => Some(Keyword::Nulls),
        "first" => Some(Keyword::First),
        "false" => Some(Keyword::False),
        _ => None,
    }
}

fn of_six(word: &str) -> Option<Keyword>
    ensures found { IfSome result (λ keyword. spelled_word keyword ≡ word.now) }
    ensures none { IsNone result → (keyword : AnyKeyword) → length (spelled_word keyword) ≡ 6 → spelled_word keyword ≢ word.now }
{
    match word {
        "values" => Some(Keyword::Values),
        "select" => Some(Keyword::Select),
        "rename" => Some(Keyword::Rename),
        "offset" => Some(Keyword::Offset),
        "except" => Some(Keyword::Except),
        "insert" => Some(Keyword::Insert),
        "append" => Some(Keyword::Append),
        "ignore" => Some(Keyword::Ignore),
        "string" => Some(Keyword::String),
        _ => None,
    }
}

fn of_seven(word: &str) -> Option<Keyword>
    ensures found { IfSome result (λ keyword. spelled_word keyword ≡ word.now) }
    ensures none { IsNone result → (keyword : AnyKeyword) → length (spelled_word keyword) ≡ 7 → spelled_word keyword ≢ word.now }
{
    match word {
        "integer" => Some(Keyword::Integer),
        "boolean" => Some(Keyword::Boolean),
        _ => None,
    }
}

fn of_eight(word: &str) -> Option<Keyword>
    ensures found { IfSome result (λ keyword. spelled_word keyword ≡ word.now) }
    ensures none { IsNone result → (keyword : AnyKeyword) → length (spelled_word keyword) ≡ 8 → spelled_word keyword ≢ word.now }
{
    match word {
        "distinct" => Some(Keyword::Distinct),
        _ => None,
    }
}

fn of_nine(word: &str) -> Option<Keyword>
    ensures found { IfSome result (λ keyword. spelled_word keyword ≡ word.now) }
    ensures none { IsNone result → (keyword : AnyKeyword) → length (spelled_word keyword) ≡ 9 → spelled_word keyword ≢ word.now }
{
    match word {
        "intersect" => Some(Keyword::Intersect),
        "overwrite" => Some(Keyword::Overwrite),
        _ => None,
    }
}
