ghost use Rattle.arrow_ipc.specs.Alignment.{WrittenStreamsAreAligned};
ghost use Rattle.arrow_ipc.specs.Holds.{WrittenStreamsHold};

/// Law: a stream that is written holds its schema and its rows, as every reader of Arrow streams finds them: the first message is that
/// schema, and the one batch has at each column and row that value. It does nothing.
pub fn written_streams_hold()
    ensures { WrittenStreamsHold }
{
    flat_tables::object_sizes_add_up();
    flat_tables::built_objects_are_read();
}

/// Law: in a stream that is written the messages, the metadata, the body and each buffer in it stand at multiples of 8. It does nothing.
pub fn written_streams_are_aligned()
    ensures { WrittenStreamsAreAligned }
{
    flat_tables::layouts_are_aligned();
}
