ghost use Rattle.std.specs.Prelude.{◌≡◌};
ghost use Rattle.plan_grammar.specs.Tests as tests;

use crate::symbol::Test;
use plan_tokens::{Keyword, Number, Sign, Token};

/// The greatest integer, and the greatest long.
const GREATEST_INTEGER: u64 = 2_147_483_647;

const GREATEST_LONG: u64 = 9_223_372_036_854_775_807;

fn is_word(word: Keyword, token: &Token) -> bool
    ensures { result ≡ tests.is_word word token.now }
{
    match token {
        Token::Word(found) => is_same_word(*found, word),
        _ => false,
    }
}

fn is_sign(sign: Sign, token: &Token) -> bool
    ensures { result ≡ tests.is_sign sign token.now }
{
    match token {
        Token::Sign(found) => is_same_sign(*found, sign),
        _ => false,
    }
}

fn is_same_word(one: Keyword, other: Keyword) -> bool
    ensures { result ≡ tests.is_same_word one other }
{
    one == other
}

fn is_same_sign(one: Sign, other: Sign) -> bool
    ensures { result ≡ tests.is_same_sign one other }
{
    one == other
}

fn is_name(token: &Token) -> bool
    ensures { result ≡ tests.is_name token.now }
{
    match token {
        Token::Name(_) => true,
        Token::Word(word) => is_same_word(*word, Keyword::Id),
        _ => false,
    }
}

fn is_mark(token: &Token) -> bool
    ensures { result ≡ tests.is_mark token.now }
{
    match token {
        Token::Name(name) => name.as_str() == "L",
        _ => false,
    }
}

fn is_number_up_to(most: u64, token: &Token) -> bool
    ensures { result ≡ tests.is_number_up_to most token.now }
{
    match token {
        Token::Number(number) => number.value <= most,
        _ => false,
    }
}

fn is_literal(number: Number, long: bool, most: u64) -> bool
    ensures { result ≡ tests.is_literal number long most }
{
    number.long == long && number.value <= most
}

fn is_number_literal(long: bool, most: u64, token: &Token) -> bool
    ensures { result ≡ tests.is_number_literal long most token.now }
{
    match token {
        Token::Number(number) => is_literal(*number, long, most),
        _ => false,
    }
}

fn is_minus(token: &Token) -> bool
    ensures { result ≡ tests.is_minus token.now }
{
    match token {
        Token::Minus(_) => true,
        _ => false,
    }
}

fn is_minus_before_digits(token: &Token) -> bool
    ensures { result ≡ tests.is_minus_before_digits token.now }
{
    match token {
        Token::Minus(Some(_)) => true,
        _ => false,
    }
}

fn is_minus_before_literal(token: &Token) -> bool
    ensures { result ≡ tests.is_minus_before_literal token.now }
{
    match token {
        Token::Minus(Some(number)) => {
            is_literal(*number, false, GREATEST_INTEGER + 1)
                || is_literal(*number, true, GREATEST_LONG + 1)
        }
        _ => false,
    }
}

fn is_quotation(token: &Token) -> bool
    ensures { result ≡ tests.is_quotation token.now }
{
    match token {
        Token::Quotation(_) => true,
        _ => false,
    }
}

fn is_date(token: &Token) -> bool
    ensures { result ≡ tests.is_date token.now }
{
    match token {
        Token::Quotation(quotation) => quotation.day.is_some(),
        _ => false,
    }
}

/// Whether the token passes the test.
#[tactic(auto, unfolding(crate::specs::Tests::passes))]
pub fn passes(test: Test, token: &Token) -> bool
    ensures { result ≡ tests.passes test token.now }
{
    match test {
        Test::Word(word) => is_word(word, token),
        Test::Sign(sign) => is_sign(sign, token),
        Test::Name => is_name(token),
        Test::Integer => is_number_up_to(GREATEST_INTEGER, token),
        Test::MinusBeforeDigits => is_minus_before_digits(token),
        Test::NegativeInteger => is_number_up_to(GREATEST_INTEGER + 1, token),
        Test::Long => is_number_up_to(GREATEST_LONG, token),
        Test::NegativeLong => is_number_up_to(GREATEST_LONG + 1, token),
        Test::Minus => is_minus(token),
        Test::MinusBeforeLiteral => is_minus_before_literal(token),
        Test::MinusApart => is_minus(token) && !is_minus_before_digits(token),
        Test::IntegerLiteral => is_number_literal(false, GREATEST_INTEGER, token),
        Test::LongLiteral => is_number_literal(true, GREATEST_LONG, token),
        Test::Mark => is_mark(token),
        Test::Quotation => is_quotation(token),
        Test::NegativeIntegerLiteral => is_number_literal(false, GREATEST_INTEGER + 1, token),
        Test::NegativeLongLiteral => is_number_literal(true, GREATEST_LONG + 1, token),
        Test::DateText => is_date(token),
    }
}
