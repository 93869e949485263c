ghost use Rattle.std.specs.Prelude.{◌≡◌, option_map};
ghost use Rattle.plan_grammar.specs.Productions as productions;
ghost use Rattle.plan_grammar.specs.declared.symbol.Use.TheVariants.{Nothing};

use crate::symbol::{Symbol, Use};

/// What stands for a symbol: the token is taken for a use, or not, and these symbols follow.
pub type Production = (Option<Use>, &'static [Symbol]);

/// The token is taken for a use, and these symbols follow.
pub fn takes_for(used: Use, symbols: &'static [Symbol]) -> Option<Production>
    ensures { option_map (λ r. (r.0, r.1.now)) result ≡ productions.takes used symbols.entry.now }
{
    Some((Some(used), symbols))
}

/// The token is taken for nothing but its place, and these symbols follow.
pub fn takes(symbols: &'static [Symbol]) -> Option<Production>
    ensures { option_map (λ r. (r.0, r.1.now)) result ≡ productions.takes Nothing symbols.entry.now }
{
    Some((Some(Use::Nothing), symbols))
}

/// The token is left to these symbols.
pub fn goes(symbols: &'static [Symbol]) -> Option<Production>
    ensures { option_map (λ r. (r.0, r.1.now)) result ≡ productions.goes symbols.entry.now }
{
    Some((None, symbols))
}
