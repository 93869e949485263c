ghost use Rattle.std.specs.Prelude.{◌≡◌, ◌≢◌, ℕ, List as AnyList, IfOk, IfErr};
ghost use Rattle.plan_tokens.specs.Tokens.{tokens_of};
ghost use Rattle.plan_grammar.specs.declared.parsing.GrammarFault.TheVariants.{OutOfMemory as no_memory};
ghost use Rattle.plan_grammar.specs.Derivation.{IsPipeline, IsUnexpected, only_tokens, OneDerivation, PlacesAreOne, PlacesRefuse};

use crate::reader::{Reader, Turn};
use crate::symbol::Deed;
use cn_base::OutOfMemory;
use std::alloc::Global;
use thiserror::Error;

/// Why a text has no derivation.
#[derive(Debug, Drop, Error)]
pub enum GrammarFault {
    /// The token at this place, in bytes, is the first at which no continuation is in the grammar; at the end of the text its length.
    #[error("unexpected at {at}")]
    Unexpected { at: usize },
    /// There was no memory.
    #[error("out of memory")]
    OutOfMemory,
}

impl From<OutOfMemory> for GrammarFault {
    ghost from_gives = { λ _ e. e ≡ no_memory };

    fn from(_error: OutOfMemory) -> GrammarFault {
        GrammarFault::OutOfMemory
    }
}

/// The deeds by which a text's tokens are a pipeline, or the first token at which no continuation is in the grammar.
pub fn derivation(alloc: Global, text: &str) -> Result<Vec<Deed>, GrammarFault>
    ensures derived { IfOk result (λ deeds. IsPipeline (only_tokens (tokens_of text.now)) deeds.items) }
    ensures unexpected { (at : ℕ) → result ≡ Err (GrammarFault.Unexpected at) → IsUnexpected text.now at }
{
    let mut reader = Reader::of(alloc, text)?;
    loop {
        match reader.step(alloc)? {
            Turn::More => {}
            Turn::Over => return Ok(reader.into_deeds()),
            Turn::Refused => return Err(GrammarFault::Unexpected {
                at: reader.place(text.len()),
            }),
        }
    }
}

/// Law: a text has at most one place at which no continuation is in the grammar, and is no pipeline where it has one.
pub fn places_are_exact()
    ensures one { PlacesAreOne }
    ensures refused { PlacesRefuse }
{}

/// Law: the tokens of a text have one derivation.
pub fn a_text_has_one_derivation()
    ensures { OneDerivation }
{}
