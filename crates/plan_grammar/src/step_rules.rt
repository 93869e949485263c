ghost use Rattle.std.specs.Prelude.{◌≡◌, option_map};
ghost use Rattle.plan_grammar.specs.StepRules as rules;

use crate::productions::{Production, goes, takes};
use crate::symbol::{Action, Choice, Part, StepAction, StepSymbol, Symbol, Test};
use crate::symbols::{
    AGG_WORD, ALL, AS_WORD, ASSIGNMENT, ASSIGNMENTS, DIRECTION, DISTINCT_NAMES, EQUAL_SIGN, EXPR,
    EXPRS, GROUP_KEYS, INTEGER, ITEM, ITEMS, JOIN_END, JOIN_KIND, KEY, KEYS, LONG, NAME, NAMES,
    NESTED, NULL_ORDER, NULL_PLACE, RENAMING, RENAMINGS,
};
use crate::tests_of_tokens::passes;
use plan_tokens::{Keyword, Sign, Token};

/// The steps of columns
fn column_step_rule(token: &Token) -> Option<Production>
    ensures { option_map (λ r. (r.0, r.1.now)) result ≡ rules.column_step_rule token.now }
{
    if passes(Test::Word(Keyword::Select), token) {
        return takes(&[ITEM, ITEMS, Symbol::Act(Action::Step(StepAction::Project))]);
    }
    if passes(Test::Word(Keyword::With), token) {
        return takes(&[
            ASSIGNMENT,
            ASSIGNMENTS,
            Symbol::Act(Action::Step(StepAction::WithColumns)),
        ]);
    }
    if passes(Test::Word(Keyword::Drop), token) {
        return takes(&[NAME, NAMES, Symbol::Act(Action::Step(StepAction::Drop))]);
    }
    if passes(Test::Word(Keyword::Rename), token) {
        return takes(&[
            RENAMING,
            RENAMINGS,
            Symbol::Act(Action::Step(StepAction::Rename)),
        ]);
    }
    if passes(Test::Word(Keyword::Names), token) {
        return takes(&[NAME, NAMES, Symbol::Act(Action::Step(StepAction::ToDf))]);
    }
    None
}

/// The steps of rows, and names of relations
fn row_step_rule(token: &Token) -> Option<Production>
    ensures { option_map (λ r. (r.0, r.1.now)) result ≡ rules.row_step_rule token.now }
{
    if passes(Test::Word(Keyword::Where), token) {
        return takes(&[EXPR, Symbol::Act(Action::Step(StepAction::Filter))]);
    }
    if passes(Test::Word(Keyword::Sort), token) {
        return takes(&[KEY, KEYS, Symbol::Act(Action::Step(StepAction::Sort))]);
    }
    if passes(Test::Word(Keyword::Limit), token) {
        return takes(&[INTEGER, Symbol::Act(Action::Step(StepAction::Limit))]);
    }
    if passes(Test::Word(Keyword::Offset), token) {
        return takes(&[INTEGER, Symbol::Act(Action::Step(StepAction::Offset))]);
    }
    if passes(Test::Word(Keyword::Distinct), token) {
        return takes(&[DISTINCT_NAMES]);
    }
    if passes(Test::Word(Keyword::Alias), token) {
        return takes(&[NAME, Symbol::Act(Action::Step(StepAction::SubqueryAlias))]);
    }
    if passes(Test::Word(Keyword::Id), token) {
        return takes(&[LONG, Symbol::Act(Action::Step(StepAction::PlanId))]);
    }
    None
}

/// Groups and joins
fn joining_step_rule(token: &Token) -> Option<Production>
    ensures { option_map (λ r. (r.0, r.1.now)) result ≡ rules.joining_step_rule token.now }
{
    if passes(Test::Word(Keyword::Group), token) {
        return takes(&[
            GROUP_KEYS,
            AGG_WORD,
            Symbol::Act(Action::Part(Part::GroupKeys)),
            ITEM,
            ITEMS,
            Symbol::Act(Action::Step(StepAction::Aggregate)),
        ]);
    }
    if passes(Test::Word(Keyword::Join), token) {
        return takes(&[JOIN_KIND, NESTED, JOIN_END]);
    }
    None
}

/// The steps of sets.
fn set_step_rule(token: &Token) -> Option<Production>
    ensures { option_map (λ r. (r.0, r.1.now)) result ≡ rules.set_step_rule token.now }
{
    if passes(Test::Word(Keyword::Union), token) {
        return takes(&[
            Symbol::Act(Action::Choice(Choice::Union)),
            ALL,
            NESTED,
            Symbol::Act(Action::Step(StepAction::SetOperation)),
        ]);
    }
    if passes(Test::Word(Keyword::Intersect), token) {
        return takes(&[
            Symbol::Act(Action::Choice(Choice::Intersect)),
            ALL,
            NESTED,
            Symbol::Act(Action::Step(StepAction::SetOperation)),
        ]);
    }
    if passes(Test::Word(Keyword::Except), token) {
        return takes(&[
            Symbol::Act(Action::Choice(Choice::Except)),
            ALL,
            NESTED,
            Symbol::Act(Action::Step(StepAction::SetOperation)),
        ]);
    }
    None
}

/// The steps
fn any_step_rule(token: &Token) -> Option<Production>
    ensures { option_map (λ r. (r.0, r.1.now)) result ≡ rules.any_step_rule token.now }
{
    if let Some(found) = column_step_rule(token) {
        return Some(found);
    }
    if let Some(found) = row_step_rule(token) {
        return Some(found);
    }
    if let Some(found) = joining_step_rule(token) {
        return Some(found);
    }
    set_step_rule(token)
}

/// { "," name "=" expr }
fn assignments_rule(token: &Token) -> Option<Production>
    ensures { option_map (λ r. (r.0, r.1.now)) result ≡ rules.assignments_rule token.now }
{
    if passes(Test::Sign(Sign::Comma), token) {
        return takes(&[ASSIGNMENT, ASSIGNMENTS]);
    }
    goes(&[])
}

/// { "," name "as" name }
fn renamings_rule(token: &Token) -> Option<Production>
    ensures { option_map (λ r. (r.0, r.1.now)) result ≡ rules.renamings_rule token.now }
{
    if passes(Test::Sign(Sign::Comma), token) {
        return takes(&[RENAMING, RENAMINGS]);
    }
    goes(&[])
}

/// { "," key }
fn keys_rule(token: &Token) -> Option<Production>
    ensures { option_map (λ r. (r.0, r.1.now)) result ≡ rules.keys_rule token.now }
{
    if passes(Test::Sign(Sign::Comma), token) {
        return takes(&[KEY, KEYS]);
    }
    goes(&[])
}

/// [ "asc" | "desc" ]
fn direction_rule(token: &Token) -> Option<Production>
    ensures { option_map (λ r. (r.0, r.1.now)) result ≡ rules.direction_rule token.now }
{
    if passes(Test::Word(Keyword::Asc), token) {
        return takes(&[Symbol::Act(Action::Choice(Choice::Ascending))]);
    }
    if passes(Test::Word(Keyword::Desc), token) {
        return takes(&[Symbol::Act(Action::Choice(Choice::Descending))]);
    }
    goes(&[Symbol::Act(Action::Choice(Choice::Ascending))])
}

/// [ "nulls" ("first" | "last") ]
fn null_order_rule(token: &Token) -> Option<Production>
    ensures { option_map (λ r. (r.0, r.1.now)) result ≡ rules.null_order_rule token.now }
{
    if passes(Test::Word(Keyword::Nulls), token) {
        return takes(&[NULL_PLACE]);
    }
    goes(&[Symbol::Act(Action::Choice(Choice::NullsByDirection))])
}

/// "first" | "last"
fn null_place_rule(token: &Token) -> Option<Production>
    ensures { option_map (λ r. (r.0, r.1.now)) result ≡ rules.null_place_rule token.now }
{
    if passes(Test::Word(Keyword::First), token) {
        return takes(&[Symbol::Act(Action::Choice(Choice::NullsFirst))]);
    }
    if passes(Test::Word(Keyword::Last), token) {
        return takes(&[Symbol::Act(Action::Choice(Choice::NullsLast))]);
    }
    None
}

/// [ "on" names ]
fn distinct_names_rule(token: &Token) -> Option<Production>
    ensures { option_map (λ r. (r.0, r.1.now)) result ≡ rules.distinct_names_rule token.now }
{
    if passes(Test::Word(Keyword::On), token) {
        return takes(&[
            NAME,
            NAMES,
            Symbol::Act(Action::Step(StepAction::DeduplicateOn)),
        ]);
    }
    goes(&[Symbol::Act(Action::Step(StepAction::Deduplicate))])
}

/// [ expr { "," expr } ], before "agg"
fn group_keys_rule(token: &Token) -> Option<Production>
    ensures { option_map (λ r. (r.0, r.1.now)) result ≡ rules.group_keys_rule token.now }
{
    if passes(Test::Word(Keyword::Agg), token) {
        return goes(&[]);
    }
    goes(&[EXPR, EXPRS])
}

/// kind of a join
fn join_kind_rule(token: &Token) -> Option<Production>
    ensures { option_map (λ r. (r.0, r.1.now)) result ≡ rules.join_kind_rule token.now }
{
    if passes(Test::Word(Keyword::Inner), token) {
        return takes(&[Symbol::Act(Action::Choice(Choice::InnerJoin))]);
    }
    if passes(Test::Word(Keyword::Full), token) {
        return takes(&[Symbol::Act(Action::Choice(Choice::FullJoin))]);
    }
    if passes(Test::Word(Keyword::Left), token) {
        return takes(&[Symbol::Act(Action::Choice(Choice::LeftJoin))]);
    }
    if passes(Test::Word(Keyword::Right), token) {
        return takes(&[Symbol::Act(Action::Choice(Choice::RightJoin))]);
    }
    if passes(Test::Word(Keyword::Anti), token) {
        return takes(&[Symbol::Act(Action::Choice(Choice::AntiJoin))]);
    }
    if passes(Test::Word(Keyword::Semi), token) {
        return takes(&[Symbol::Act(Action::Choice(Choice::SemiJoin))]);
    }
    if passes(Test::Word(Keyword::Cross), token) {
        return takes(&[Symbol::Act(Action::Choice(Choice::CrossJoin))]);
    }
    None
}

/// [ "on" expr | "using" names ]
fn join_end_rule(token: &Token) -> Option<Production>
    ensures { option_map (λ r. (r.0, r.1.now)) result ≡ rules.join_end_rule token.now }
{
    if passes(Test::Word(Keyword::On), token) {
        return takes(&[EXPR, Symbol::Act(Action::Step(StepAction::JoinOn))]);
    }
    if passes(Test::Word(Keyword::Using), token) {
        return takes(&[
            NAME,
            NAMES,
            Symbol::Act(Action::Step(StepAction::JoinUsing)),
        ]);
    }
    goes(&[Symbol::Act(Action::Step(StepAction::JoinAll))])
}

/// [ "all" ]
fn all_rule(token: &Token) -> Option<Production>
    ensures { option_map (λ r. (r.0, r.1.now)) result ≡ rules.all_rule token.now }
{
    if passes(Test::Word(Keyword::All), token) {
        return takes(&[Symbol::Act(Action::Choice(Choice::All))]);
    }
    goes(&[Symbol::Act(Action::Choice(Choice::NotAll))])
}

/// What stands for one of these symbols before a token.
pub fn step_rule(symbol: StepSymbol, token: &Token) -> Option<Production>
    ensures { option_map (λ r. (r.0, r.1.now)) result ≡ rules.step_rule symbol token.now }
{
    match symbol {
        StepSymbol::Step => any_step_rule(token),
        // name "=" expr
        StepSymbol::Assignment => goes(&[
            NAME,
            EQUAL_SIGN,
            EXPR,
            Symbol::Act(Action::Part(Part::Assign)),
        ]),
        StepSymbol::Assignments => assignments_rule(token),
        // name "as" name
        StepSymbol::Renaming => goes(&[
            NAME,
            AS_WORD,
            NAME,
            Symbol::Act(Action::Part(Part::Renaming)),
        ]),
        StepSymbol::Renamings => renamings_rule(token),
        // expr [ "asc" | "desc" ] [ "nulls" ("first" | "last") ]
        StepSymbol::Key => goes(&[
            EXPR,
            DIRECTION,
            NULL_ORDER,
            Symbol::Act(Action::Part(Part::Order)),
        ]),
        StepSymbol::Keys => keys_rule(token),
        StepSymbol::Direction => direction_rule(token),
        StepSymbol::NullOrder => null_order_rule(token),
        StepSymbol::NullPlace => null_place_rule(token),
        StepSymbol::DistinctNames => distinct_names_rule(token),
        StepSymbol::GroupKeys => group_keys_rule(token),
        StepSymbol::JoinKind => join_kind_rule(token),
        StepSymbol::JoinEnd => join_end_rule(token),
        StepSymbol::All => all_rule(token),
    }
}
