ghost use Rattle.std.specs.Prelude.{◌≡◌};
ghost use Rattle.arrow_read.specs.Tables.{head_in as said_head, is_version as says_version};

use crate::numbers;
use flat_tables::Table;

/// The table `Message` (Message.fbs): the number of its header in the union, the header, and how many bytes its body has.
#[derive(Debug, Drop)]
pub(crate) struct Head<'a> {
    pub(crate) number: u8,
    pub(crate) header: Table<'a>,
    pub(crate) body: usize,
}

/// Whether it is V4 or V5.
fn is_version(version: i16) -> bool
    ensures { result ≡ says_version version }
{
    version == 3 || version == 4
}

/// The message of these metadata.
#[tactic(auto, unfolding(crate::specs::Tables::head_in))]
pub(crate) fn head_in(metadata: &[u8]) -> Option<Head<'_>>
    ensures { result ≡ said_head metadata.now }
{
    let message = Table::root(metadata).ok()?;
    let version = message.i16_at(0).ok()?;
    let number = message.u8_at(1).ok()?;
    let named = message.table_at(2).ok()?;
    let size = message.i64_at(3).ok()?;
    let header = named?;
    let body = numbers::not_negative(size.unwrap_or(0))?;
    if !is_version(version.unwrap_or(0)) {
        return None;
    }
    Some(Head {
        number: number.unwrap_or(0),
        header,
        body,
    })
}
