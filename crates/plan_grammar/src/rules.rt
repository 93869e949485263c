ghost use Rattle.std.specs.Prelude.{◌≡◌, option_map};
ghost use Rattle.plan_grammar.specs.Grammar as grammar;

use crate::expression_rules::expression_rule;
use crate::pipeline_rules::pipeline_rule;
use crate::productions::{Production, takes};
use crate::step_rules::step_rule;
use crate::symbol::Symbol;
use crate::tests_of_tokens::passes;
use crate::unit_rules::unit_rule;
use crate::values_rules::values_rule;
use cn_types::DataType;
use plan_tokens::Token;

/// What stands for a symbol before a token: at most one production.
pub fn rule(wanted: Option<DataType>, symbol: Symbol, token: &Token) -> Option<Production>
    ensures { option_map (λ r. (r.0, r.1.now)) result ≡ grammar.rule wanted symbol token.now }
{
    match symbol {
        Symbol::Pipeline(symbol) => pipeline_rule(symbol, token),
        Symbol::Step(symbol) => step_rule(symbol, token),
        Symbol::Expression(symbol) => expression_rule(symbol, token),
        Symbol::Unit(symbol) => unit_rule(symbol, token),
        Symbol::Values(symbol) => values_rule(wanted, symbol, token),
        Symbol::Need(test) => {
            if passes(test, token) {
                return takes(&[]);
            }
            None
        }
        Symbol::Act(_) => None,
        Symbol::Column(_) => None,
        Symbol::Row => None,
    }
}
