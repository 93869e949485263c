ghost use Rattle.std.specs.Prelude.{◌≡◌, ◌≢◌, ◌≤◌, ◌⊎◌, [], ℕ, List, Option, Some, IfOk, MatchOption};
ghost use Rattle.std.specs.Io.KnownBytes.{IsAtEnd};
ghost use Rattle.cn_base.specs.Outside.{Rose};
ghost use Rattle.connect_replay.specs.Ask.{IsNoScript};
ghost use Rattle.connect_replay.specs.Outcome.{Leaves, Prints, PrintsSection};

use crate::ask::parse_script;
use crate::message::range_of_message;
use crate::range::range_numbers;
use crate::reading::read_start;
use crate::section::section_text;
use crate::status::ReplayStatus;
use cn_base::{OutOfMemory, Sink, Source, Text, write_all};
use std::alloc::Global;

/// How many bytes are read: more than the longest script has, which is a line of 105 bytes and its LF.
const READ_LIMIT: usize = 128;

/// Runs the script of the input, `ask NAME range A B C`, and prints its section to the output.
pub fn replay<S: Source, K: Sink>(
    alloc: Global,
    words: &[Text],
    input: &mut S,
    output: &mut K,
) -> ReplayStatus
    // What the output tells has grown by what the answer prints.
    ensures printed { Leaves words.now (S.left input.old) (K.told output.old) (K.told output.new) result }

    // Words are looked at first: where there is one, nothing else is answered, unless the output fails.
    ensures words_first { words.now ≢ [] → (result ≡ ReplayStatus.BadWords) ⊎ (result ≡ ReplayStatus.WriteFault) }

    // A fault is answered only where the outside had one.
    ensures read_fault { result ≡ ReplayStatus.ReadFault → Rose (S.faults input.old) (S.faults input.new) }
    ensures write_fault { result ≡ ReplayStatus.WriteFault → Rose (K.faults output.old) (K.faults output.new) }

    // And any other answer says that it had none: no read and no write that failed is passed over.
    ensures no_read_fault { result ≢ ReplayStatus.ReadFault → S.faults input.new ≡ S.faults input.old }
    ensures no_write_fault { result ≢ ReplayStatus.WriteFault → K.faults output.new ≡ K.faults output.old }

    ensures whole { result ≡ ReplayStatus.Done → IsAtEnd (S.left input.new) }
    ensures reads_counted { S.faults input.old ≤ S.faults input.new }
    ensures writes_counted { K.faults output.old ≤ K.faults output.new }
{
    if !words.is_empty() {
        return finish(output, "bad words\n", ReplayStatus::BadWords);
    }
    let mut buffer = [0; READ_LIMIT];
    let Ok(count) = read_start(input, &mut buffer) else {
        return ReplayStatus::ReadFault;
    };
    match play(alloc, &buffer[..count]) {
        Ok(Some(text)) => finish(output, text.as_str(), ReplayStatus::Done),
        Ok(None) => finish(
            output,
            "bad script 1\n",
            ReplayStatus::BadScript { line: 1 },
        ),
        Err(_) => ReplayStatus::OutOfMemory,
    }
}

/// Writes the text, and answers this status, or that the write failed.
fn finish<K: Sink>(output: &mut K, text: &str, status: ReplayStatus) -> ReplayStatus
    ensures printed { (words : List (List ℕ)) (script : Option (List ℕ)) → Prints words script status text.now
        → Leaves words script (K.told output.old) (K.told output.new) result }
    ensures status { (result ≡ status) ⊎ ((result ≡ ReplayStatus.WriteFault) × Rose (K.faults output.old) (K.faults output.new)) }
    ensures counted { K.faults output.old ≤ K.faults output.new }
    ensures kept { result ≢ ReplayStatus.WriteFault → K.faults output.new ≡ K.faults output.old }
{
    match write_all(output, text.as_bytes()) {
        Ok(()) => status,
        Err(_) => ReplayStatus::WriteFault,
    }
}

/// The section of the ask that the script spells, or None where it spells none.
fn play(alloc: Global, script: &[u8]) -> Result<Option<Text>, OutOfMemory>
    ensures { IfOk result (λ found. MatchOption found (IsNoScript script.now) (λ text. PrintsSection (Some script.now) text)) }
{
    let Some(ask) = parse_script(alloc, script)? else {
        return Ok(None);
    };
    let range = range_of_message(alloc, &ask)?;
    let numbers = range_numbers(alloc, range.start.unwrap_or(0), range.end, range.step)?;
    Ok(Some(section_text(alloc, &ask, numbers.as_slice())?))
}
