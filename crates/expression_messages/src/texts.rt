ghost use Rattle.std.specs.Prelude.{◌≡◌, ◌≤◌, ◌++◌, OnOk};
ghost use Rattle.proto_fields.specs.Sizes.{size_of};
ghost use Rattle.proto_fields.specs.Spelling.{spell};
ghost use Rattle.expression_messages.specs.Messages.{repeated_fields};

use cn_base::{OutOfMemory, Text};
use proto_fields::{MessageWriter, payload_size};

/// Puts the texts of a repeated field of this number before what stands, empty ones too. Where memory runs out, nothing is promised of what
/// stands then.
pub fn put_texts(out: &mut MessageWriter, number: u32, texts: &[Text]) -> Result<(), OutOfMemory>
    requires low { 1 ≤ number }
    requires high { number ≤ 536870911 }
    ensures { OnOk result (out.new ≡ spell (repeated_fields number texts.now) ++ out.old) }
{
    for index in (0..texts.len()).rev() {
        let text = &texts[index];
        out.put_payload(number, text.as_str().as_bytes())?;
    }
    Ok(())
}

/// How many bytes the texts of a repeated field of this number take; 2^64 - 1 where it is above that. It takes no memory.
pub fn texts_size(number: u32, texts: &[Text]) -> u64
    requires low { 1 ≤ number }
    requires high { number ≤ 536870911 }
    ensures { result ≡ size_of (repeated_fields number texts.now) }
{
    let mut total = 0u64;
    for text in texts {
        total = total.saturating_add(payload_size(number, text.as_str().len()));
    }
    total
}
