ghost use Rattle.std.specs.Prelude.{◌≡◌, ◌↔◌, List, ℕ, Some, IfOk};
ghost use Rattle.resolve_names.specs.Identifiers as identifiers;

use cn_base::{List, OutOfMemory, Text};
use std::alloc::Global;

/// Where a text has been read to.
#[derive(Clone, Copy, Debug, PartialEq, Eq)]
pub(crate) enum Place {
    /// At the start of a part.
    Start,
    /// In a part without backquotes, behind its first character.
    Bare,
    /// In a part in backquotes.
    Quoted,
    /// Behind a backquote that ends a part, or is the first of two.
    Closing,
}

/// What a character does.
#[derive(Clone, Copy, Debug, PartialEq, Eq)]
pub(crate) enum Effect {
    /// It belongs to the part.
    Keep(Place),
    /// It belongs to no part.
    Skip(Place),
    /// It ends the part, and another one starts.
    End,
    /// It may not stand there.
    Refuse,
}

/// The parts of an identifier: they are joined by dots, and each stands as it is, or in backquotes with each backquote in it doubled. A
/// part without backquotes is not empty and has no dot and no backquote. None where the text is no identifier.
pub fn identifier_parts(alloc: Global, text: &str) -> Result<Option<List<Text>>, OutOfMemory>
    ensures parts { IfOk result (λ found. found ≡ identifiers.parts_in text.now) }
    ensures spelling { IfOk result (λ found. (parts : List (List ℕ)) → (found ≡ Some parts) ↔ identifiers.IsIdentifier text.now parts) }
{
    read_parts(alloc, text)
}

fn read_parts(alloc: Global, text: &str) -> Result<Option<List<Text>>, OutOfMemory>
    ensures { IfOk result (λ found. found ≡ identifiers.parts_in text.now) }
{
    let mut done = List::new(alloc);
    let mut part = String::new(alloc);
    let mut place = Place::Start;
    for character in text.chars() {
        match step(place, character) {
            Effect::Keep(next) => {
                part.push(character)?;
                place = next;
            }
            Effect::Skip(next) => place = next,
            Effect::End => {
                done.push(Text::from_string(part))?;
                part = String::new(alloc);
                place = Place::Start;
            }
            Effect::Refuse => return Ok(None),
        }
    }
    match place {
        Place::Start | Place::Quoted => Ok(None),
        Place::Bare | Place::Closing => {
            done.push(Text::from_string(part))?;
            Ok(Some(done))
        }
    }
}

fn step(place: Place, character: char) -> Effect
    ensures { result ≡ identifiers.step place character }
{
    match place {
        Place::Start => match character {
            '.' => Effect::Refuse,
            '`' => Effect::Skip(Place::Quoted),
            _ => Effect::Keep(Place::Bare),
        },
        Place::Bare => match character {
            '.' => Effect::End,
            '`' => Effect::Refuse,
            _ => Effect::Keep(Place::Bare),
        },
        Place::Quoted => match character {
            '`' => Effect::Skip(Place::Closing),
            _ => Effect::Keep(Place::Quoted),
        },
        Place::Closing => match character {
            '.' => Effect::End,
            '`' => Effect::Keep(Place::Quoted),
            _ => Effect::Refuse,
        },
    }
}
