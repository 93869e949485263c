ghost use Rattle.std.specs.Prelude.{◌≡◌, option_map};
ghost use Rattle.arrow_read.specs.Tables.{utf8 as said_utf8};

/// The text that these bytes are, if they are UTF-8.
#[tactic(auto, unfolding(crate::specs::Tables::utf8))]
pub(crate) fn utf8(bytes: &[u8]) -> Option<&str>
    ensures { option_map (λ text. text.now) result ≡ said_utf8 bytes.now }
{
    match str::from_utf8(bytes) {
        Ok(text) => Some(text),
        Err(_) => None,
    }
}
