ghost use Rattle.std.specs.Prelude.{◌≡◌, ◌++◌};
ghost use Rattle.resolve_functions.specs.FunctionNames as names;

use crate::folding::is_name;
use plan_model::Function;

/// The built-in function of a name, where there is one. Names fold: ASCII letters match in either case. It takes no memory.
#[tactic(auto, unfolding(crate::specs::FunctionNames::function_named), using(crate::proofs::Tables::at_name_append))]
pub fn function_named(name: &str) -> Option<Function>
    ensures { result ≡ names.function_named name.now }
{
    match arithmetic_named(name) {
        Some(function) => Some(function),
        None => behind_arithmetic(name),
    }
}

#[tactic(auto, using(crate::proofs::Tables::at_name_append))]
fn behind_arithmetic(name: &str) -> Option<Function>
    ensures { result ≡ names.at_name name.now (names.equality_names ++ (names.order_names ++ (names.logic_names ++ (names.choice_names ++ (names.text_names ++ (names.date_names ++ (names.aggregate_names))))))) }
{
    match equality_named(name) {
        Some(function) => Some(function),
        None => behind_equality(name),
    }
}

#[tactic(auto, using(crate::proofs::Tables::at_name_append))]
fn behind_equality(name: &str) -> Option<Function>
    ensures { result ≡ names.at_name name.now (names.order_names ++ (names.logic_names ++ (names.choice_names ++ (names.text_names ++ (names.date_names ++ (names.aggregate_names)))))) }
{
    match order_named(name) {
        Some(function) => Some(function),
        None => behind_order(name),
    }
}

#[tactic(auto, using(crate::proofs::Tables::at_name_append))]
fn behind_order(name: &str) -> Option<Function>
    ensures { result ≡ names.at_name name.now (names.logic_names ++ (names.choice_names ++ (names.text_names ++ (names.date_names ++ (names.aggregate_names))))) }
{
    match logic_named(name) {
        Some(function) => Some(function),
        None => behind_logic(name),
    }
}

#[tactic(auto, using(crate::proofs::Tables::at_name_append))]
fn behind_logic(name: &str) -> Option<Function>
    ensures { result ≡ names.at_name name.now (names.choice_names ++ (names.text_names ++ (names.date_names ++ (names.aggregate_names)))) }
{
    match choice_named(name) {
        Some(function) => Some(function),
        None => behind_choice(name),
    }
}

#[tactic(auto, using(crate::proofs::Tables::at_name_append))]
fn behind_choice(name: &str) -> Option<Function>
    ensures { result ≡ names.at_name name.now (names.text_names ++ (names.date_names ++ (names.aggregate_names))) }
{
    match text_named(name) {
        Some(function) => Some(function),
        None => behind_text(name),
    }
}

#[tactic(auto, using(crate::proofs::Tables::at_name_append))]
fn behind_text(name: &str) -> Option<Function>
    ensures { result ≡ names.at_name name.now (names.date_names ++ (names.aggregate_names)) }
{
    match date_named(name) {
        Some(function) => Some(function),
        None => behind_date(name),
    }
}

#[tactic(auto, using(crate::proofs::Tables::at_name_append))]
fn behind_date(name: &str) -> Option<Function>
    ensures { result ≡ names.at_name name.now (names.aggregate_names) }
{
    aggregate_named(name)
}

#[tactic(auto, unfolding(crate::specs::FunctionNames::arithmetic_names))]
fn arithmetic_named(name: &str) -> Option<Function>
    ensures { result ≡ names.at_name name.now names.arithmetic_names }
{
    if is_name(name, "+") {
        return Some(Function::Add);
    }
    if is_name(name, "-") {
        return Some(Function::Subtract);
    }
    if is_name(name, "*") {
        return Some(Function::Multiply);
    }
    if is_name(name, "%") {
        return Some(Function::Remainder);
    }
    if is_name(name, "div") {
        return Some(Function::IntegralDivide);
    }
    if is_name(name, "negative") {
        return Some(Function::Negative);
    }
    if is_name(name, "abs") {
        return Some(Function::Abs);
    }
    None
}

#[tactic(auto, unfolding(crate::specs::FunctionNames::equality_names))]
fn equality_named(name: &str) -> Option<Function>
    ensures { result ≡ names.at_name name.now names.equality_names }
{
    if is_name(name, "=") {
        return Some(Function::EqualTo);
    }
    if is_name(name, "==") {
        return Some(Function::EqualTo);
    }
    if is_name(name, "!=") {
        return Some(Function::NotEqualTo);
    }
    if is_name(name, "<>") {
        return Some(Function::NotEqualTo);
    }
    if is_name(name, "<=>") {
        return Some(Function::EqualNullSafe);
    }
    None
}

#[tactic(auto, unfolding(crate::specs::FunctionNames::order_names))]
fn order_named(name: &str) -> Option<Function>
    ensures { result ≡ names.at_name name.now names.order_names }
{
    if is_name(name, "<") {
        return Some(Function::LessThan);
    }
    if is_name(name, "<=") {
        return Some(Function::LessThanOrEqual);
    }
    if is_name(name, ">") {
        return Some(Function::GreaterThan);
    }
    if is_name(name, ">=") {
        return Some(Function::GreaterThanOrEqual);
    }
    None
}

#[tactic(auto, unfolding(crate::specs::FunctionNames::logic_names))]
fn logic_named(name: &str) -> Option<Function>
    ensures { result ≡ names.at_name name.now names.logic_names }
{
    if is_name(name, "and") {
        return Some(Function::And);
    }
    if is_name(name, "or") {
        return Some(Function::Or);
    }
    if is_name(name, "not") {
        return Some(Function::Not);
    }
    if is_name(name, "!") {
        return Some(Function::Not);
    }
    if is_name(name, "isnull") {
        return Some(Function::IsNull);
    }
    if is_name(name, "isnotnull") {
        return Some(Function::IsNotNull);
    }
    None
}

#[tactic(auto, unfolding(crate::specs::FunctionNames::choice_names))]
fn choice_named(name: &str) -> Option<Function>
    ensures { result ≡ names.at_name name.now names.choice_names }
{
    if is_name(name, "coalesce") {
        return Some(Function::Coalesce);
    }
    if is_name(name, "when") {
        return Some(Function::When);
    }
    if is_name(name, "in") {
        return Some(Function::In);
    }
    None
}

#[tactic(auto, unfolding(crate::specs::FunctionNames::text_names))]
fn text_named(name: &str) -> Option<Function>
    ensures { result ≡ names.at_name name.now names.text_names }
{
    if is_name(name, "concat") {
        return Some(Function::Concat);
    }
    if is_name(name, "length") {
        return Some(Function::Length);
    }
    if is_name(name, "startswith") {
        return Some(Function::StartsWith);
    }
    if is_name(name, "endswith") {
        return Some(Function::EndsWith);
    }
    if is_name(name, "contains") {
        return Some(Function::Contains);
    }
    None
}

#[tactic(auto, unfolding(crate::specs::FunctionNames::date_names))]
fn date_named(name: &str) -> Option<Function>
    ensures { result ≡ names.at_name name.now names.date_names }
{
    if is_name(name, "year") {
        return Some(Function::Year);
    }
    if is_name(name, "month") {
        return Some(Function::Month);
    }
    if is_name(name, "dayofmonth") {
        return Some(Function::DayOfMonth);
    }
    if is_name(name, "date_add") {
        return Some(Function::DateAdd);
    }
    if is_name(name, "date_sub") {
        return Some(Function::DateSub);
    }
    if is_name(name, "datediff") {
        return Some(Function::DateDiff);
    }
    None
}

#[tactic(auto, unfolding(crate::specs::FunctionNames::aggregate_names))]
fn aggregate_named(name: &str) -> Option<Function>
    ensures { result ≡ names.at_name name.now names.aggregate_names }
{
    if is_name(name, "count") {
        return Some(Function::Count);
    }
    if is_name(name, "sum") {
        return Some(Function::Sum);
    }
    if is_name(name, "min") {
        return Some(Function::Min);
    }
    if is_name(name, "max") {
        return Some(Function::Max);
    }
    None
}
