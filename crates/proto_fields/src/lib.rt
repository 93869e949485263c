//! Fields of the messages of a plan service: the table of all messages with their first faults, and the readings and writings that a
//! typed message is made of.
#![tactic(auto)]

mod fault;
mod finding;
mod kind;
mod laws;
mod oneof;
mod reading;
mod record;
mod size;
mod table;
mod writer;
mod writing;

pub use fault::MessageFault;
pub use finding::find_fault;
pub use kind::{MessageKind, PayloadKind};
pub use laws::{
    fault_is_one, faulty_have_no_fields, fields_join, fields_of_records, first_fault_is_fault,
    others_are_skipped, readings_are_valid, readings_join, scalars_return, sound_by_fields,
    sound_have_no_fault, sound_is_not_faulty, sound_or_faulty, spelled_is_read, spelled_is_sound,
    texts_are_kept, written_is_read,
};
pub use oneof::{Member, latest};
pub use reading::{
    bool_field, int32_field, int64_field, last_number, last_payload, merged, optional_bool,
    optional_bytes, optional_int32, optional_int64, optional_text, payloads, text_field, texts,
};
pub use record::{Content, Record, records};
pub use size::{
    bool_size, head_size, int_size, message_size, optional_bool_size, optional_bytes_size,
    optional_int32_size, optional_int64_size, optional_text_size, payload_size, text_size,
};
pub use table::{is_member, payload_of};
pub use writer::MessageWriter;
pub use writing::{
    put_bool, put_int32, put_int64, put_optional_bool, put_optional_bytes, put_optional_int32,
    put_optional_int64, put_optional_text, put_payload, put_text,
};

#[cfg(test)]
mod tests;
