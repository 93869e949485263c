ghost use Rattle.std.specs.Prelude.{◌≡◌, ◌≢◌, [], ◌∷◌, ◌++◌, IfOk, OnOk};
ghost use Rattle.plan_tokens.specs.Tokens.{tokens_of};
ghost use Rattle.plan_grammar.specs.Derivation as derivation;
ghost use Rattle.plan_grammar.specs.Derivation.{Config as AnyConfig};

use crate::rules::rule;
use crate::stack::Stack;
use crate::symbol::{Columns, Deed, PipelineSymbol, Symbol, Use};
use cn_base::OutOfMemory;
use plan_tokens::{Placed, Token, Tokens};
use std::alloc::Global;
use std::marker::Model;
use std::mem;

/// How a step of a reader ended.
#[derive(Clone, Copy, Debug, PartialEq, Eq)]
pub enum Turn {
    /// A step was made.
    More,
    /// No symbol and no token is left.
    Over,
    /// No derivation goes on with the next token.
    Refused,
}

/// A reader of a text by the grammar.
#[derive(Debug, Drop)]
pub struct Reader<'a> {
    tokens: Tokens<'a>,
    /// The next token; none at the end of the text.
    current: Option<Placed>,
    stack: Stack,
    columns: Columns,
    deeds: Vec<Deed>,
}

impl<'a> Model for Reader<'a> {
    ghost use Rattle.std.specs.Prelude.{◌≡◌, [], ◌++◌, IsNone, option_to_list};
    ghost use Rattle.plan_grammar.specs.Derivation.{Config};

    ghost Value = { Config };

    ghost view = { λ r. record { columns = r.columns; symbols = r.stack; left = option_to_list r.current ++ r.tokens; deeds = r.deeds.items } };

    ghost invariant = { λ r. IsNone r.current → r.tokens ≡ [] };
}

/// What is done at a symbol that is no token.
fn deed_of(symbol: Symbol) -> Option<Deed>
    ensures { result ≡ derivation.deed_of symbol }
{
    match symbol {
        Symbol::Act(action) => Some(Deed::Act(action)),
        Symbol::Column(kind) => Some(Deed::Column(kind)),
        Symbol::Row => Some(Deed::Row),
        Symbol::Pipeline(_) => None,
        Symbol::Step(_) => None,
        Symbol::Expression(_) => None,
        Symbol::Unit(_) => None,
        Symbol::Values(_) => None,
        Symbol::Need(_) => None,
    }
}

/// Keeps a token that was taken for more than its place.
fn keep(deeds: &mut Vec<Deed>, used: Use, token: Token) -> Result<(), OutOfMemory>
    ensures { OnOk result (deeds.new.items ≡ deeds.old.items ++ derivation.kept used token) }
{
    match used {
        Use::Nothing => Ok(()),
        _ => {
            deeds.push(Deed::Take(used, token))?;
            Ok(())
        }
    }
}

impl<'a> Reader<'a> {
    /// A reader at the beginning of a text.
    pub fn of(alloc: Global, text: &'a str) -> Result<Reader<'a>, OutOfMemory>
        ensures { IfOk result (λ r. r ≡ record { columns = derivation.no_columns; symbols = derivation.whole; left = tokens_of text.entry.now; deeds = [] }) }
    {
        let mut tokens = Tokens::of(text);
        let current = tokens.next(alloc)?;
        let mut stack = Stack::new(alloc);
        stack.push_all(&[Symbol::Pipeline(PipelineSymbol::Whole)])?;
        Ok(Reader {
            tokens,
            current,
            stack,
            columns: Columns::new(alloc),
            deeds: Vec::new(alloc),
        })
    }

    /// Where the next token stands; at the end of the text its length.
    pub fn place(&self, length: usize) -> usize
        ensures { result ≡ derivation.place_of self.now.left length }
    {
        match &self.current {
            Some(placed) => placed.at,
            None => length,
        }
    }

    /// What was done.
    pub fn into_deeds(self) -> Vec<Deed>
        ensures { result.items ≡ self.entry.deeds }
    {
        self.deeds
    }

    /// Makes a step: does what the next symbol asks for, or puts its production in its place.
    #[tactic(auto, unfolding(crate::specs::Derivation::step_of))]
    pub fn step(&mut self, alloc: Global) -> Result<Turn, OutOfMemory>
        ensures step { IfOk result (λ turn. derivation.said turn self.new ≡ derivation.step_of self.old) }
        ensures left { IfOk result (λ turn. turn ≢ Turn.More → self.new.left ≡ self.old.left) }
        ensures deeds { IfOk result (λ turn. turn ≢ Turn.More → self.new.deeds ≡ self.old.deeds) }
    {
        let Some(symbol) = self.stack.pop() else {
            return Ok(self.ended());
        };
        if let Some(done) = deed_of(symbol) {
            self.columns.go_on(&done)?;
            self.deeds.push(done)?;
            return Ok(Turn::More);
        }
        let end = Token::End;
        let token = match &self.current {
            Some(placed) => &placed.token,
            None => &end,
        };
        match rule(self.columns.wanted(), symbol, token) {
            None => Ok(Turn::Refused),
            Some((None, production)) => {
                self.stack.push_all(production)?;
                Ok(Turn::More)
            }
            Some((Some(used), production)) => self.take(alloc, used, production),
        }
    }

    /// Whether the text has ended, where no symbol is left.
    fn ended(&self) -> Turn
        ensures { (config : AnyConfig) → derivation.said result config ≡ derivation.at_end self.now.left }
    {
        match &self.current {
            Some(_) => Turn::Refused,
            None => Turn::Over,
        }
    }

    /// Takes the next token for a use, and puts symbols in the place of one.
    fn take(&mut self, alloc: Global, used: Use, production: &[Symbol]) -> Result<Turn, OutOfMemory>
        ensures step { IfOk result (λ turn. derivation.said turn self.new ≡ derivation.by_left self.old self.old.symbols production.now used self.old.left) }
        ensures same { IfOk result (λ turn. turn ≢ Turn.More → self.new ≡ self.old) }
    {
        if self.current.is_none() {
            return Ok(Turn::Refused);
        }
        let next = self.tokens.next(alloc)?;
        if let Some(placed) = mem::replace(&mut self.current, next) {
            keep(&mut self.deeds, used, placed.token)?;
        }
        self.columns.take(alloc, used);
        self.stack.push_all(production)?;
        Ok(Turn::More)
    }
}
