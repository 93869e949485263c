//! Field records of the Protocol Buffers wire format: reading them with exact faults and places, and writing their shortest spellings.
#![tactic(auto)]

mod fault;
mod field;
mod laws;
mod reading;
mod wire_type;
mod writing;

pub use fault::WireFault;
pub use field::{WireField, WireValue};
pub use laws::{
    fault_is_one, number_begins, number_is_read, payload_is_slice, records_are_one,
    records_have_no_fault, records_join, records_or_fault, span_begins, span_is_read,
    span_is_slice, varint_is_shortest,
};
pub use reading::wire_fields;
pub use writing::{put_number, put_span, put_span_head, put_varint, varint_length};

#[cfg(test)]
mod tests;
