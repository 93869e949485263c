//! Laws over the definitions of fields, soundness, faults, readings and spellings, each the contract of a function that does nothing.

ghost use Rattle.proto_fields.specs.Laws.{FieldsOfRecords, FaultyHaveNoFields, FieldsJoin, SoundByFields, SoundHaveNoFault, FirstFaultIsFault, SoundOrFaulty, FaultIsOne, SoundIsNotFaulty, SpelledIsRead, SpelledIsSound, ScalarsReturn, ReadingsJoin, OthersAreSkipped, WrittenIsRead, TextsAreKept, ReadingsAreValid};

/// The fields of bytes are those of their records.
pub fn fields_of_records()
    ensures { FieldsOfRecords }
{}

/// Bytes with a fault have no fields.
pub fn faulty_have_no_fields()
    ensures { FaultyHaveNoFields }
{}

/// Two messages, one after the other, have the fields of both.
pub fn fields_join()
    ensures { FieldsJoin }
{}

/// A message is sound exactly where its bytes are records and the payload of each of its fields is sound.
pub fn sound_by_fields()
    ensures { SoundByFields }
{}

/// A message has no first fault exactly where it is sound.
pub fn sound_have_no_fault()
    ensures { SoundHaveNoFault }
{}

/// The first fault of a message is the fault that it has.
pub fn first_fault_is_fault()
    ensures { FirstFaultIsFault }
{}

/// All bytes are a sound message or have a fault.
pub fn sound_or_faulty()
    ensures { SoundOrFaulty }
{}

/// A message has one fault at most.
pub fn fault_is_one()
    ensures { FaultIsOne }
{}

/// A sound message has no fault.
pub fn sound_is_not_faulty()
    ensures { SoundIsNotFaulty }
{}

/// Writable fields are spelled as a message of these fields.
pub fn spelled_is_read()
    ensures { SpelledIsRead }
{}

/// What fields are spelled as is sound exactly where the payload of each is.
pub fn spelled_is_sound()
    ensures { SpelledIsSound }
{}

/// What a scalar is written as is read as the scalar.
pub fn scalars_return()
    ensures { ScalarsReturn }
{}

/// Two lists of fields, one after the other: the later scalar and text count, and payloads follow one another.
pub fn readings_join()
    ensures { ReadingsJoin }
{}

/// Nothing is read of fields of other numbers.
pub fn others_are_skipped()
    ensures { OthersAreSkipped }
{}

/// What a value is written as is read as the value.
pub fn written_is_read()
    ensures { WrittenIsRead }
{}

/// Where a payload is a text in the table of `find_fault`, the text of a sound message is read as it stands.
pub fn texts_are_kept()
    ensures { TextsAreKept }
{}

/// Whatever fields are read, a number has the bits of its type and a text is UTF-8.
pub fn readings_are_valid()
    ensures { ReadingsAreValid }
{}
