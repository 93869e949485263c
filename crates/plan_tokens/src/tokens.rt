ghost use Rattle.std.specs.Prelude.{◌≡◌, [], ◌++◌, IfOk, IsNone, OnErr, option_to_list};
ghost use Rattle.plan_tokens.specs.Tokens.{tokens_of};

use crate::Placed;
use crate::bytes::spaces_end;
use crate::reading::first_token;
use cn_base::OutOfMemory;
use std::alloc::Global;
use std::marker::Model;

/// The tokens of a text, read one by one. Contracts see those that are left.
#[derive(Debug, Drop)]
pub struct Tokens<'a> {
    /// What is left of the text.
    rest: &'a str,
    /// Where it begins.
    at: usize,
    /// The length of the text.
    end: usize,
}

impl<'a> Model for Tokens<'a> {
    ghost use Rattle.std.specs.Prelude.{◌≡◌, ◌+◌, List, length};
    ghost use Rattle.plan_tokens.specs.Tokens.{tokens_from};
    ghost use Rattle.plan_tokens.specs.declared.token.Placed.{Placed};

    ghost Value = { List Placed };

    ghost view = { λ t. tokens_from 0 t.at t.rest.now };

    ghost invariant = { λ t. t.at + length t.rest.now ≡ t.end };
}

impl<'a> Tokens<'a> {
    /// The tokens of a text. It takes no memory.
    pub fn of(text: &'a str) -> Tokens<'a>
        ensures { result ≡ tokens_of text.entry.now }
    {
        Tokens {
            rest: text,
            at: 0,
            end: text.len(),
        }
    }

    /// Takes the next token, where there is one.
    pub fn next(&mut self, alloc: Global) -> Result<Option<Placed>, OutOfMemory>
        ensures next { IfOk result (λ next. self.old ≡ option_to_list next ++ self.new) }
        ensures none { IfOk result (λ next. IsNone next → self.new ≡ []) }
        ensures err { OnErr result (self.new ≡ self.old) }
    {
        let spaces = spaces_end(self.rest.as_bytes(), 0);
        let rest = &self.rest[spaces..];
        if rest.is_empty() {
            return Ok(None);
        }
        let (token, size) = first_token(alloc, rest)?;
        let at = self.at + spaces;
        self.at = at + size;
        self.rest = &rest[size..];
        Ok(Some(Placed { token, at }))
    }
}
