//! Laws over the definitions of records and faults, each the contract of a function that does nothing.

ghost use Rattle.proto_wire.specs.Laws.{RecordsAreOne, FaultIsOne, RecordsHaveNoFault, RecordsOrFault, VarintIsShortest, RecordsJoin, NumberBegins, SpanBegins, NumberIsRead, SpanIsRead, PayloadIsSlice, SpanIsSlice};

/// Bytes are one list of records at most.
pub fn records_are_one()
    ensures { RecordsAreOne }
{}

/// Bytes have one fault at most, after the same records.
pub fn fault_is_one()
    ensures { FaultIsOne }
{}

/// No bytes are records and have a fault.
pub fn records_have_no_fault()
    ensures { RecordsHaveNoFault }
{}

/// All bytes are records or have a fault.
pub fn records_or_fault()
    ensures { RecordsOrFault }
{}

/// The shortest varint of a number spells it, and no spelling of the number is shorter.
pub fn varint_is_shortest()
    ensures { VarintIsShortest }
{}

/// Records one after another, in two parts, are the records of both.
pub fn records_join()
    ensures { RecordsJoin }
{}

/// What `put_number` appends is one record where it stands.
pub fn number_begins()
    ensures { NumberBegins }
{}

/// What `put_span` appends is one record where it stands.
pub fn span_begins()
    ensures { SpanBegins }
{}

/// What `put_number` appends is read as the same record, whatever stands before and after it.
pub fn number_is_read()
    ensures { NumberIsRead }
{}

/// What `put_span` appends is read as the same record, whatever stands before and after it.
pub fn span_is_read()
    ensures { SpanIsRead }
{}

/// The places of the record that `put_span` appends are those of the payload.
pub fn payload_is_slice()
    ensures { PayloadIsSlice }
{}

/// The payload of any span is what stands between its places.
pub fn span_is_slice()
    ensures { SpanIsSlice }
{}
