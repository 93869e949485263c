//! The grammar of pipeline texts: its symbols and productions, and what a text's tokens are derived by.
#![tactic(auto)]

mod columns;
mod expression_rules;
mod parsing;
mod pipeline_rules;
mod productions;
mod reader;
mod rules;
mod stack;
mod step_rules;
mod symbol;
mod symbols;
#[cfg(test)]
mod tests;
mod tests_of_tokens;
mod unit_rules;
mod values_rules;

pub use parsing::{GrammarFault, a_text_has_one_derivation, derivation, places_are_exact};
pub use symbol::{
    Action, Binary, Cell, Choice, Columns, Deed, ExpressionSymbol, Part, PipelineSymbol,
    StepAction, StepSymbol, Symbol, Test, Unary, UnitAction, UnitSymbol, Use, ValuesSymbol,
};
