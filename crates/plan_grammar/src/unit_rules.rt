ghost use Rattle.std.specs.Prelude.{◌≡◌, option_map};
ghost use Rattle.plan_grammar.specs.UnitRules as rules;

use crate::productions::{Production, goes, takes, takes_for};
use crate::symbol::{Action, Symbol, Test, Unary, UnitAction, UnitSymbol, Use};
use crate::symbols::{
    ARGUMENT_LIST, ARGUMENTS, AS_WORD, CLOSE_SIGN, DATE_TEXT, DOT_SIGN, EXPR, EXPRS, KIND,
    LONG_MARK, NAME, NEGATIVE_LITERAL, OPEN_SIGN, PART, PARTS, PLAN_NUMBER, UNIT, UNIT_NAME,
};
use crate::tests_of_tokens::passes;
use cn_types::DataType;
use plan_tokens::{Keyword, Sign, Token};

/// Literals
fn literal_rule(token: &Token) -> Option<Production>
    ensures { option_map (λ r. (r.0, r.1.now)) result ≡ rules.literal_rule token.now }
{
    if passes(Test::MinusBeforeLiteral, token) {
        return takes(&[NEGATIVE_LITERAL]);
    }
    if passes(Test::IntegerLiteral, token) {
        return takes_for(Use::IntegerLiteral, &[]);
    }
    if passes(Test::LongLiteral, token) {
        return takes_for(Use::LongLiteral, &[LONG_MARK]);
    }
    if passes(Test::Quotation, token) {
        return takes_for(Use::Text, &[]);
    }
    if passes(Test::Word(Keyword::True), token) {
        return takes(&[Symbol::Act(Action::Unit(UnitAction::True))]);
    }
    if passes(Test::Word(Keyword::False), token) {
        return takes(&[Symbol::Act(Action::Unit(UnitAction::False))]);
    }
    if passes(Test::Word(Keyword::Null), token) {
        return takes(&[KIND, Symbol::Act(Action::Unit(UnitAction::Null))]);
    }
    if passes(Test::Word(Keyword::Date), token) {
        return takes(&[DATE_TEXT]);
    }
    None
}

/// "-" unit, calls, columns and brackets
fn other_unit_rule(token: &Token) -> Option<Production>
    ensures { option_map (λ r. (r.0, r.1.now)) result ≡ rules.other_unit_rule token.now }
{
    if passes(Test::MinusApart, token) {
        return takes(&[UNIT, Symbol::Act(Action::Unary(Unary::Negative))]);
    }
    if passes(Test::Word(Keyword::Cast), token) {
        return takes(&[
            OPEN_SIGN,
            EXPR,
            AS_WORD,
            KIND,
            CLOSE_SIGN,
            Symbol::Act(Action::Unit(UnitAction::Cast)),
        ]);
    }
    if passes(Test::Sign(Sign::At), token) {
        return takes(&[
            PLAN_NUMBER,
            DOT_SIGN,
            NAME,
            Symbol::Act(Action::Unit(UnitAction::AttributeOfPlan)),
        ]);
    }
    if passes(Test::Name, token) {
        return takes_for(Use::Name, &[UNIT_NAME]);
    }
    if passes(Test::Sign(Sign::Open), token) {
        return takes(&[EXPR, CLOSE_SIGN]);
    }
    None
}

/// unit
fn any_unit_rule(token: &Token) -> Option<Production>
    ensures { option_map (λ r. (r.0, r.1.now)) result ≡ rules.any_unit_rule token.now }
{
    if let Some(found) = literal_rule(token) {
        return Some(found);
    }
    other_unit_rule(token)
}

/// The digits behind `-`
fn negative_literal_rule(token: &Token) -> Option<Production>
    ensures { option_map (λ r. (r.0, r.1.now)) result ≡ rules.negative_literal_rule token.now }
{
    if passes(Test::NegativeIntegerLiteral, token) {
        return takes_for(Use::NegativeIntegerLiteral, &[]);
    }
    if passes(Test::NegativeLongLiteral, token) {
        return takes_for(Use::NegativeLongLiteral, &[LONG_MARK]);
    }
    None
}

/// a text that is a date
fn date_text_rule(token: &Token) -> Option<Production>
    ensures { option_map (λ r. (r.0, r.1.now)) result ≡ rules.date_text_rule token.now }
{
    if passes(Test::DateText, token) {
        return takes_for(Use::Date, &[]);
    }
    None
}

/// int without `-`
fn plan_number_rule(token: &Token) -> Option<Production>
    ensures { option_map (λ r. (r.0, r.1.now)) result ≡ rules.plan_number_rule token.now }
{
    if passes(Test::Long, token) {
        return takes_for(Use::Long, &[]);
    }
    None
}

/// A unit behind its first name
fn unit_name_rule(token: &Token) -> Option<Production>
    ensures { option_map (λ r. (r.0, r.1.now)) result ≡ rules.unit_name_rule token.now }
{
    if passes(Test::Sign(Sign::Open), token) {
        return takes(&[Symbol::Act(Action::Unit(UnitAction::Mark)), ARGUMENTS]);
    }
    if passes(Test::Sign(Sign::Dot), token) {
        return takes(&[
            Symbol::Act(Action::Unit(UnitAction::Identifier)),
            PART,
            PARTS,
            Symbol::Act(Action::Unit(UnitAction::Attribute)),
        ]);
    }
    goes(&[
        Symbol::Act(Action::Unit(UnitAction::Identifier)),
        Symbol::Act(Action::Unit(UnitAction::Attribute)),
    ])
}

/// name
fn part_rule(token: &Token) -> Option<Production>
    ensures { option_map (λ r. (r.0, r.1.now)) result ≡ rules.part_rule token.now }
{
    if passes(Test::Name, token) {
        return takes_for(Use::Part, &[]);
    }
    None
}

/// { "." name }
fn parts_rule(token: &Token) -> Option<Production>
    ensures { option_map (λ r. (r.0, r.1.now)) result ≡ rules.parts_rule token.now }
{
    if passes(Test::Sign(Sign::Dot), token) {
        return takes(&[PART, PARTS]);
    }
    goes(&[])
}

/// ( "*" | [ "distinct" ] [ expr { "," expr } ] ) ")"
fn arguments_rule(token: &Token) -> Option<Production>
    ensures { option_map (λ r. (r.0, r.1.now)) result ≡ rules.arguments_rule token.now }
{
    if passes(Test::Sign(Sign::Star), token) {
        return takes(&[
            CLOSE_SIGN,
            Symbol::Act(Action::Unit(UnitAction::Star)),
            Symbol::Act(Action::Unit(UnitAction::Call)),
        ]);
    }
    if passes(Test::Word(Keyword::Distinct), token) {
        return takes(&[
            ARGUMENT_LIST,
            CLOSE_SIGN,
            Symbol::Act(Action::Unit(UnitAction::CallDistinct)),
        ]);
    }
    goes(&[
        ARGUMENT_LIST,
        CLOSE_SIGN,
        Symbol::Act(Action::Unit(UnitAction::Call)),
    ])
}

/// [ expr { "," expr } ], before ")"
fn argument_list_rule(token: &Token) -> Option<Production>
    ensures { option_map (λ r. (r.0, r.1.now)) result ≡ rules.argument_list_rule token.now }
{
    if passes(Test::Sign(Sign::Close), token) {
        return goes(&[]);
    }
    goes(&[EXPR, EXPRS])
}

/// type
fn kind_rule(token: &Token) -> Option<Production>
    ensures { option_map (λ r. (r.0, r.1.now)) result ≡ rules.kind_rule token.now }
{
    if passes(Test::Word(Keyword::Integer), token) {
        return takes(&[Symbol::Act(Action::Kind(DataType::Integer))]);
    }
    if passes(Test::Word(Keyword::Long), token) {
        return takes(&[Symbol::Act(Action::Kind(DataType::Long))]);
    }
    if passes(Test::Word(Keyword::String), token) {
        return takes(&[Symbol::Act(Action::Kind(DataType::Text))]);
    }
    if passes(Test::Word(Keyword::Boolean), token) {
        return takes(&[Symbol::Act(Action::Kind(DataType::Boolean))]);
    }
    if passes(Test::Word(Keyword::Date), token) {
        return takes(&[Symbol::Act(Action::Kind(DataType::Date))]);
    }
    None
}

/// What stands for one of these symbols before a token.
pub fn unit_rule(symbol: UnitSymbol, token: &Token) -> Option<Production>
    ensures { option_map (λ r. (r.0, r.1.now)) result ≡ rules.unit_rule symbol token.now }
{
    match symbol {
        UnitSymbol::Unit => any_unit_rule(token),
        UnitSymbol::NegativeLiteral => negative_literal_rule(token),
        UnitSymbol::DateText => date_text_rule(token),
        UnitSymbol::PlanNumber => plan_number_rule(token),
        UnitSymbol::UnitName => unit_name_rule(token),
        UnitSymbol::Part => part_rule(token),
        UnitSymbol::Parts => parts_rule(token),
        UnitSymbol::Arguments => arguments_rule(token),
        UnitSymbol::ArgumentList => argument_list_rule(token),
        UnitSymbol::Kind => kind_rule(token),
    }
}
