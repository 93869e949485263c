ghost use Rattle.std.specs.Prelude.{◌≡◌, ◌↔◌, ℕ, Some};
ghost use Rattle.session_core.specs.Ids.{IsTextOf};

use uuid::Uuid;

/// The number of the id that a text spells: a UUID (RFC 9562) in its hyphenated form, with hexadecimal digits in either case. It takes no
/// memory.
pub fn parse_id(text: &str) -> Option<u128>
    ensures { (id : ℕ) → (result ≡ Some id) ↔ IsTextOf id text.now }
{
    let uuid = Uuid::parse_str(text).ok()?;
    let id = uuid.as_u128();
    let mut buffer = Uuid::encode_buffer();
    let spelled = Uuid::from_u128(id).hyphenated().encode_lower(&mut buffer);
    spelled.eq_ignore_ascii_case(text).then_some(id)
}
