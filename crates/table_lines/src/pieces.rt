ghost use Rattle.std.specs.Prelude.{◌≡◌, ◌≤◌, ◌++◌, not, length, ◌==◌, [], IsNone, option_to_list, option_map};
ghost use Rattle.std.specs.List.{prefix_len, slice_split};
ghost use Rattle.table_lines.specs.Lines as lines;

use std::marker::Model;

/// The pieces of bytes between separators. Contracts see those that are left.
#[derive(Debug, Drop)]
pub struct Pieces<'a> {
    rest: Option<&'a [u8]>,
    separator: u8,
}

impl<'a> Model for Pieces<'a> {
    ghost use Rattle.std.specs.Prelude.{ℕ, List, option_map};
    ghost use Rattle.table_lines.specs.Lines.{pieces_left};

    ghost Value = { List (List ℕ) };

    ghost view = { λ p. pieces_left p.separator (option_map (λ rest. rest.now) p.rest) };
}

impl<'a> Pieces<'a> {
    /// The pieces of these bytes.
    pub fn of(bytes: &'a [u8], separator: u8) -> Pieces<'a>
        ensures { result ≡ slice_split (λ b. b == separator) bytes.entry.now }
    {
        Pieces {
            rest: Some(bytes),
            separator,
        }
    }

    /// Takes the next piece, where there is one.
    pub fn next(&mut self) -> Option<&'a [u8]>
        ensures next { self.old ≡ option_to_list (option_map (λ piece. piece.now) result) ++ self.new }
        ensures none { IsNone result → self.old ≡ [] }
    {
        let rest = self.rest?;
        let size = piece_length(rest, self.separator);
        let (piece, behind) = rest.split_at(size);
        self.rest = behind_first(behind);
        Some(piece)
    }
}

/// How many bytes stand before the first separator.
fn piece_length(bytes: &[u8], separator: u8) -> usize
    ensures run { result ≡ prefix_len (λ b. not (b == separator)) bytes.now }
    ensures within { result ≤ length bytes.now }
{
    bytes.iter().take_while(|byte| **byte != separator).count()
}

/// What stands behind the first byte, where there is one.
fn behind_first(bytes: &[u8]) -> Option<&[u8]>
    ensures { option_map (λ rest. rest.now) result ≡ lines.behind_first bytes.now }
{
    match bytes.split_first() {
        Some((_, rest)) => Some(rest),
        None => None,
    }
}
