ghost use Rattle.std.specs.Prelude.{◌≡◌, option_map};
ghost use Rattle.plan_grammar.specs.ExpressionRules as rules;

use crate::productions::{Production, goes, takes, takes_for};
use crate::symbol::{Action, Binary, ExpressionSymbol, Symbol, Test, Unary, UnitAction, Use};
use crate::symbols::{
    ANDS, ARGUMENTS, AS, COMPARISON, CONJ, EXPR, EXPRS, IS_NULL, ITEM, ITEM_NAME, ITEM_PART, ITEMS,
    NAME, NEG, NULL_WORD, OPERATORS, ORS, PARTS, PROD, PRODUCTS, SUM, SUMS, UNIT,
};
use crate::tests_of_tokens::passes;
use plan_tokens::{Keyword, Sign, Token};

/// "*" | name "." "*" | expr [ "as" name ]
fn item_rule(token: &Token) -> Option<Production>
    ensures { option_map (λ r. (r.0, r.1.now)) result ≡ rules.item_rule token.now }
{
    if passes(Test::Sign(Sign::Star), token) {
        return takes(&[Symbol::Act(Action::Unit(UnitAction::Star))]);
    }
    if passes(Test::Name, token) {
        return takes_for(Use::Name, &[ITEM_NAME]);
    }
    goes(&[EXPR, AS])
}

/// An item behind its first name
fn item_name_rule(token: &Token) -> Option<Production>
    ensures { option_map (λ r. (r.0, r.1.now)) result ≡ rules.item_name_rule token.now }
{
    if passes(Test::Sign(Sign::Open), token) {
        return takes(&[
            Symbol::Act(Action::Unit(UnitAction::Mark)),
            ARGUMENTS,
            OPERATORS,
            AS,
        ]);
    }
    if passes(Test::Sign(Sign::Dot), token) {
        return takes(&[Symbol::Act(Action::Unit(UnitAction::Identifier)), ITEM_PART]);
    }
    goes(&[
        Symbol::Act(Action::Unit(UnitAction::Identifier)),
        Symbol::Act(Action::Unit(UnitAction::Attribute)),
        OPERATORS,
        AS,
    ])
}

/// An item behind its first name and `.`
fn item_part_rule(token: &Token) -> Option<Production>
    ensures { option_map (λ r. (r.0, r.1.now)) result ≡ rules.item_part_rule token.now }
{
    if passes(Test::Sign(Sign::Star), token) {
        return takes(&[Symbol::Act(Action::Unit(UnitAction::StarOf))]);
    }
    if passes(Test::Name, token) {
        return takes_for(
            Use::Part,
            &[
                PARTS,
                Symbol::Act(Action::Unit(UnitAction::Attribute)),
                OPERATORS,
                AS,
            ],
        );
    }
    None
}

/// { "," item }
fn items_rule(token: &Token) -> Option<Production>
    ensures { option_map (λ r. (r.0, r.1.now)) result ≡ rules.items_rule token.now }
{
    if passes(Test::Sign(Sign::Comma), token) {
        return takes(&[ITEM, ITEMS]);
    }
    goes(&[])
}

/// [ "as" name ]
fn as_rule(token: &Token) -> Option<Production>
    ensures { option_map (λ r. (r.0, r.1.now)) result ≡ rules.as_rule token.now }
{
    if passes(Test::Word(Keyword::As), token) {
        return takes(&[NAME, Symbol::Act(Action::Unit(UnitAction::Alias))]);
    }
    goes(&[])
}

/// { "or" conj }
fn ors_rule(token: &Token) -> Option<Production>
    ensures { option_map (λ r. (r.0, r.1.now)) result ≡ rules.ors_rule token.now }
{
    if passes(Test::Word(Keyword::Or), token) {
        return takes(&[CONJ, Symbol::Act(Action::Binary(Binary::Or)), ORS]);
    }
    goes(&[])
}

/// { "and" neg }
fn ands_rule(token: &Token) -> Option<Production>
    ensures { option_map (λ r. (r.0, r.1.now)) result ≡ rules.ands_rule token.now }
{
    if passes(Test::Word(Keyword::And), token) {
        return takes(&[NEG, Symbol::Act(Action::Binary(Binary::And)), ANDS]);
    }
    goes(&[])
}

/// "not" neg | comp
fn neg_rule(token: &Token) -> Option<Production>
    ensures { option_map (λ r. (r.0, r.1.now)) result ≡ rules.neg_rule token.now }
{
    if passes(Test::Word(Keyword::Not), token) {
        return takes(&[NEG, Symbol::Act(Action::Unary(Unary::Not))]);
    }
    goes(&[SUM, COMPARISON])
}

/// [ ("=" | "!=" | "<" | "<=" | ">" | ">=" | "<=>") sum | "is" [ "not" ] "null" ]
fn comparison_rule(token: &Token) -> Option<Production>
    ensures { option_map (λ r. (r.0, r.1.now)) result ≡ rules.comparison_rule token.now }
{
    if passes(Test::Sign(Sign::Equal), token) {
        return takes(&[SUM, Symbol::Act(Action::Binary(Binary::Equal))]);
    }
    if passes(Test::Sign(Sign::NotEqual), token) {
        return takes(&[SUM, Symbol::Act(Action::Binary(Binary::NotEqual))]);
    }
    if passes(Test::Sign(Sign::Less), token) {
        return takes(&[SUM, Symbol::Act(Action::Binary(Binary::Less))]);
    }
    if passes(Test::Sign(Sign::LessEqual), token) {
        return takes(&[SUM, Symbol::Act(Action::Binary(Binary::LessEqual))]);
    }
    if passes(Test::Sign(Sign::Greater), token) {
        return takes(&[SUM, Symbol::Act(Action::Binary(Binary::Greater))]);
    }
    if passes(Test::Sign(Sign::GreaterEqual), token) {
        return takes(&[SUM, Symbol::Act(Action::Binary(Binary::GreaterEqual))]);
    }
    if passes(Test::Sign(Sign::SameOrNull), token) {
        return takes(&[SUM, Symbol::Act(Action::Binary(Binary::SameOrNull))]);
    }
    if passes(Test::Word(Keyword::Is), token) {
        return takes(&[IS_NULL]);
    }
    goes(&[])
}

/// [ "not" ] "null"
fn is_null_rule(token: &Token) -> Option<Production>
    ensures { option_map (λ r. (r.0, r.1.now)) result ≡ rules.is_null_rule token.now }
{
    if passes(Test::Word(Keyword::Not), token) {
        return takes(&[NULL_WORD, Symbol::Act(Action::Unary(Unary::IsNotNull))]);
    }
    if passes(Test::Word(Keyword::Null), token) {
        return takes(&[Symbol::Act(Action::Unary(Unary::IsNull))]);
    }
    None
}

/// { ("+" | "-") prod }
fn sums_rule(token: &Token) -> Option<Production>
    ensures { option_map (λ r. (r.0, r.1.now)) result ≡ rules.sums_rule token.now }
{
    if passes(Test::Sign(Sign::Plus), token) {
        return takes(&[PROD, Symbol::Act(Action::Binary(Binary::Plus)), SUMS]);
    }
    if passes(Test::Minus, token) {
        return takes(&[PROD, Symbol::Act(Action::Binary(Binary::Minus)), SUMS]);
    }
    goes(&[])
}

/// { ("*" | "%" | "div") unit }
fn products_rule(token: &Token) -> Option<Production>
    ensures { option_map (λ r. (r.0, r.1.now)) result ≡ rules.products_rule token.now }
{
    if passes(Test::Sign(Sign::Star), token) {
        return takes(&[UNIT, Symbol::Act(Action::Binary(Binary::Times)), PRODUCTS]);
    }
    if passes(Test::Sign(Sign::Percent), token) {
        return takes(&[
            UNIT,
            Symbol::Act(Action::Binary(Binary::Remainder)),
            PRODUCTS,
        ]);
    }
    if passes(Test::Word(Keyword::Div), token) {
        return takes(&[UNIT, Symbol::Act(Action::Binary(Binary::Div)), PRODUCTS]);
    }
    goes(&[])
}

/// { "," expr }
fn exprs_rule(token: &Token) -> Option<Production>
    ensures { option_map (λ r. (r.0, r.1.now)) result ≡ rules.exprs_rule token.now }
{
    if passes(Test::Sign(Sign::Comma), token) {
        return takes(&[EXPR, EXPRS]);
    }
    goes(&[])
}

/// What stands for one of these symbols before a token.
pub fn expression_rule(symbol: ExpressionSymbol, token: &Token) -> Option<Production>
    ensures { option_map (λ r. (r.0, r.1.now)) result ≡ rules.expression_rule symbol token.now }
{
    match symbol {
        ExpressionSymbol::Item => item_rule(token),
        ExpressionSymbol::ItemName => item_name_rule(token),
        ExpressionSymbol::ItemPart => item_part_rule(token),
        ExpressionSymbol::Items => items_rule(token),
        ExpressionSymbol::As => as_rule(token),
        // what may follow a unit
        ExpressionSymbol::Operators => goes(&[PRODUCTS, SUMS, COMPARISON, ANDS, ORS]),
        // conj { "or" conj }
        ExpressionSymbol::Expr => goes(&[CONJ, ORS]),
        ExpressionSymbol::Ors => ors_rule(token),
        // neg { "and" neg }
        ExpressionSymbol::Conj => goes(&[NEG, ANDS]),
        ExpressionSymbol::Ands => ands_rule(token),
        ExpressionSymbol::Neg => neg_rule(token),
        ExpressionSymbol::Comparison => comparison_rule(token),
        ExpressionSymbol::IsNull => is_null_rule(token),
        // prod { ("+" | "-") prod }
        ExpressionSymbol::Sum => goes(&[PROD, SUMS]),
        ExpressionSymbol::Sums => sums_rule(token),
        // unit { ("*" | "%" | "div") unit }
        ExpressionSymbol::Prod => goes(&[UNIT, PRODUCTS]),
        ExpressionSymbol::Products => products_rule(token),
        ExpressionSymbol::Exprs => exprs_rule(token),
    }
}
