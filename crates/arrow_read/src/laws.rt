ghost use Rattle.arrow_read.specs.BadTables.{BadTablesAreTold};
ghost use Rattle.arrow_read.specs.ColumnFaults.{ColumnFaultsAreFirst};
ghost use Rattle.arrow_read.specs.Faults.{FaultsAreFirst};
ghost use Rattle.arrow_read.specs.MessageFaults.{MessageFaultsAreFirst};
ghost use Rattle.arrow_read.specs.Laws.{ReadRowsFit, StreamsAreRead, StreamsHoldOne, WrittenStreamsAreRead};

/// Law: what is read of a stream it holds, and what a stream holds, as any writer laid it out, is read. It does nothing.
pub fn streams_are_read()
    ensures { StreamsAreRead }
{}

/// Law: a stream holds one schema and one list of batches. It does nothing.
pub fn streams_hold_one()
    ensures { StreamsHoldOne }
{}

/// Law: what `write_stream` writes is read back. It does nothing.
pub fn written_streams_are_read()
    ensures { WrittenStreamsAreRead }
{
    arrow_ipc::written_streams_hold();
}

/// Law: each row that is read has a value of each field's type, or null, and no more values. It does nothing.
pub fn read_rows_fit()
    ensures { ReadRowsFit }
{}

/// Law: a stream's fault is that of its first message that isn't as it has to be, where those before it are, or the number of batches of a
/// whole stream, where one was wanted. It does nothing.
pub fn faults_are_first()
    ensures { FaultsAreFirst }
{}

/// Law: a batch's columns have the fault of the first column from the left that has one: it has no node of the batch's length, or else its
/// buffers aren't sound, or else its first row whose text isn't UTF-8, or whose date is out of range. It does nothing.
pub fn column_faults_are_first()
    ensures { ColumnFaultsAreFirst }
{}

/// Law: a message's tables can't be read exactly where one of the format's rows says why, it has another header or big-endian numbers exactly
/// where one says so, and a field that is read is of another type exactly where one says so. It does nothing.
pub fn bad_tables_are_told()
    ensures { BadTablesAreTold }
{}

/// Law: the first message, and each later one, has the fault of the first row of the format's tests that meets it: no mark or a negative
/// size, metadata that are cut, tables that can't be read, an unsupported type or a compression, a body that is cut, or the columns' own
/// fault. It does nothing.
pub fn message_faults_are_first()
    ensures { MessageFaultsAreFirst }
{}
