ghost use Rattle.std.specs.Prelude.{◌≡◌, ◌++◌, OnOk};
ghost use Rattle.proto_fields.specs.Spelling.{spell};
ghost use Rattle.expression_messages.specs.Spelled as spelled;

use crate::message::put_message_head;
use crate::type_writing::put_type;
use crate::{CastTarget, Literal, UnresolvedAttribute, UnresolvedStar};
use cn_base::OutOfMemory;
use proto_fields::MessageWriter;

/// Puts the literal's message before what stands. Its member is written at its default too.
#[tactic(auto, using(crate::proofs::Written::spell_nil))]
pub(crate) fn put_literal(out: &mut MessageWriter, literal: &Literal) -> Result<(), OutOfMemory>
    ensures { OnOk result (out.new ≡ spell (spelled.literal_fields literal.now) ++ out.old) }
{
    match literal {
        Literal::Null(kind) => {
            let end = out.len();
            put_type(out, kind)?;
            put_message_head(out, 1, end)
        }
        Literal::Boolean(value) => out.put_optional_bool(3, Some(*value)),
        Literal::Integer(value) => out.put_optional_int32(6, Some(*value)),
        Literal::Long(value) => out.put_optional_int64(7, Some(*value)),
        Literal::String(text) => out.put_payload(13, text.as_str().as_bytes()),
        Literal::Date(days) => out.put_optional_int32(16, Some(*days)),
        Literal::Absent => Ok(()),
    }
}

/// Puts the column's message before what stands.
#[tactic(auto, using(crate::proofs::Written::stand_two))]
pub(crate) fn put_attribute(
    out: &mut MessageWriter,
    attribute: &UnresolvedAttribute,
) -> Result<(), OutOfMemory>
    ensures { OnOk result (out.new ≡ spell (spelled.attribute_fields attribute.now) ++ out.old) }
{
    out.put_optional_int64(2, attribute.plan_id)?;
    out.put_text(1, attribute.unparsed_identifier.as_str())
}

/// Puts the star's message before what stands.
pub(crate) fn put_star(out: &mut MessageWriter, star: &UnresolvedStar) -> Result<(), OutOfMemory>
    ensures { OnOk result (out.new ≡ spell (spelled.star_fields star.now) ++ out.old) }
{
    out.put_optional_text(1, &star.unparsed_target)
}

/// Puts the fields of a cast's target before what stands.
#[tactic(auto, using(crate::proofs::Written::spell_nil))]
pub(crate) fn put_target(out: &mut MessageWriter, target: &CastTarget) -> Result<(), OutOfMemory>
    ensures { OnOk result (out.new ≡ spell (spelled.target_fields target.now) ++ out.old) }
{
    match target {
        CastTarget::Kind(kind) => {
            let end = out.len();
            put_type(out, kind)?;
            put_message_head(out, 2, end)
        }
        CastTarget::KindText(text) => out.put_payload(3, text.as_str().as_bytes()),
        CastTarget::Absent => Ok(()),
    }
}
