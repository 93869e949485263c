ghost use Rattle.std.specs.Prelude.{◌≡◌, option_map};
ghost use Rattle.plan_grammar.specs.PipelineRules as rules;

use crate::productions::{Production, goes, takes, takes_for};
use crate::symbol::{Action, Choice, PipelineSymbol, StepAction, Symbol, Test, Use};
use crate::symbols::{
    CLOSE_SIGN, COLUMN, COLUMNS, FINISH, LONG, MODE, NAME, NAMES, NEGATIVE_INTEGER, NEGATIVE_LONG,
    OPEN_SIGN, ROWS, SOURCE, STEP, STEP_OR_WRITE, STEPS,
};
use crate::tests_of_tokens::passes;
use plan_tokens::{Keyword, Sign, Token};

/// "range" int int int | "table" name | "values" "(" column { "," column } ")" { row }
fn source_rule(token: &Token) -> Option<Production>
    ensures { option_map (λ r. (r.0, r.1.now)) result ≡ rules.source_rule token.now }
{
    if passes(Test::Word(Keyword::Range), token) {
        return takes(&[
            LONG,
            LONG,
            LONG,
            Symbol::Act(Action::Step(StepAction::Range)),
        ]);
    }
    if passes(Test::Word(Keyword::Table), token) {
        return takes(&[NAME, Symbol::Act(Action::Step(StepAction::Read))]);
    }
    if passes(Test::Word(Keyword::Values), token) {
        return takes_for(
            Use::NewColumns,
            &[
                OPEN_SIGN,
                COLUMN,
                COLUMNS,
                CLOSE_SIGN,
                ROWS,
                Symbol::Act(Action::Step(StepAction::Values)),
            ],
        );
    }
    None
}

/// { "|" step } [ "|" ("write" | "insert") name [ mode ] ]
fn finish_rule(token: &Token) -> Option<Production>
    ensures { option_map (λ r. (r.0, r.1.now)) result ≡ rules.finish_rule token.now }
{
    if passes(Test::Sign(Sign::Bar), token) {
        return takes(&[STEP_OR_WRITE]);
    }
    goes(&[])
}

/// ("write" | "insert") name [ mode ] | step ..
fn step_or_write_rule(token: &Token) -> Option<Production>
    ensures { option_map (λ r. (r.0, r.1.now)) result ≡ rules.step_or_write_rule token.now }
{
    if passes(Test::Word(Keyword::Write), token) {
        return takes(&[NAME, MODE, Symbol::Act(Action::Step(StepAction::Write))]);
    }
    if passes(Test::Word(Keyword::Insert), token) {
        return takes(&[NAME, MODE, Symbol::Act(Action::Step(StepAction::Insert))]);
    }
    goes(&[STEP, FINISH])
}

/// [ "append" | "overwrite" | "error" | "ignore" ]
fn mode_rule(token: &Token) -> Option<Production>
    ensures { option_map (λ r. (r.0, r.1.now)) result ≡ rules.mode_rule token.now }
{
    if passes(Test::Word(Keyword::Append), token) {
        return takes(&[Symbol::Act(Action::Choice(Choice::Append))]);
    }
    if passes(Test::Word(Keyword::Overwrite), token) {
        return takes(&[Symbol::Act(Action::Choice(Choice::Overwrite))]);
    }
    if passes(Test::Word(Keyword::Error), token) {
        return takes(&[Symbol::Act(Action::Choice(Choice::ErrorIfExists))]);
    }
    if passes(Test::Word(Keyword::Ignore), token) {
        return takes(&[Symbol::Act(Action::Choice(Choice::Ignore))]);
    }
    goes(&[Symbol::Act(Action::Choice(Choice::NoMode))])
}

/// { "|" step }
fn steps_rule(token: &Token) -> Option<Production>
    ensures { option_map (λ r. (r.0, r.1.now)) result ≡ rules.steps_rule token.now }
{
    if passes(Test::Sign(Sign::Bar), token) {
        return takes(&[STEP, STEPS]);
    }
    goes(&[])
}

/// name
fn name_rule(token: &Token) -> Option<Production>
    ensures { option_map (λ r. (r.0, r.1.now)) result ≡ rules.name_rule token.now }
{
    if passes(Test::Name, token) {
        return takes_for(Use::Name, &[]);
    }
    None
}

/// { "," name }
fn names_rule(token: &Token) -> Option<Production>
    ensures { option_map (λ r. (r.0, r.1.now)) result ≡ rules.names_rule token.now }
{
    if passes(Test::Sign(Sign::Comma), token) {
        return takes(&[NAME, NAMES]);
    }
    goes(&[])
}

/// int, of 32 bits
fn integer_rule(token: &Token) -> Option<Production>
    ensures { option_map (λ r. (r.0, r.1.now)) result ≡ rules.integer_rule token.now }
{
    if passes(Test::Integer, token) {
        return takes_for(Use::Integer, &[]);
    }
    if passes(Test::MinusBeforeDigits, token) {
        return takes(&[NEGATIVE_INTEGER]);
    }
    None
}

/// The digits behind `-`
fn negative_integer_rule(token: &Token) -> Option<Production>
    ensures { option_map (λ r. (r.0, r.1.now)) result ≡ rules.negative_integer_rule token.now }
{
    if passes(Test::NegativeInteger, token) {
        return takes_for(Use::NegativeInteger, &[]);
    }
    None
}

/// int, of 64 bits
fn long_rule(token: &Token) -> Option<Production>
    ensures { option_map (λ r. (r.0, r.1.now)) result ≡ rules.long_rule token.now }
{
    if passes(Test::Long, token) {
        return takes_for(Use::Long, &[]);
    }
    if passes(Test::MinusBeforeDigits, token) {
        return takes(&[NEGATIVE_LONG]);
    }
    None
}

/// The digits behind `-`
fn negative_long_rule(token: &Token) -> Option<Production>
    ensures { option_map (λ r. (r.0, r.1.now)) result ≡ rules.negative_long_rule token.now }
{
    if passes(Test::NegativeLong, token) {
        return takes_for(Use::NegativeLong, &[]);
    }
    None
}

/// What stands for one of these symbols before a token.
pub fn pipeline_rule(symbol: PipelineSymbol, token: &Token) -> Option<Production>
    ensures { option_map (λ r. (r.0, r.1.now)) result ≡ rules.pipeline_rule symbol token.now }
{
    match symbol {
        // source { "|" step } [ "|" finish ]
        PipelineSymbol::Whole => goes(&[SOURCE, FINISH]),
        PipelineSymbol::Source => source_rule(token),
        PipelineSymbol::Finish => finish_rule(token),
        PipelineSymbol::StepOrWrite => step_or_write_rule(token),
        PipelineSymbol::Mode => mode_rule(token),
        // "(" source { "|" step } ")"
        PipelineSymbol::Nested => goes(&[OPEN_SIGN, SOURCE, STEPS, CLOSE_SIGN]),
        PipelineSymbol::Steps => steps_rule(token),
        PipelineSymbol::Name => name_rule(token),
        PipelineSymbol::Names => names_rule(token),
        PipelineSymbol::Integer => integer_rule(token),
        PipelineSymbol::NegativeInteger => negative_integer_rule(token),
        PipelineSymbol::Long => long_rule(token),
        PipelineSymbol::NegativeLong => negative_long_rule(token),
    }
}
