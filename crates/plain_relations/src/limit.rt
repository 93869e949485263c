ghost use Rattle.std.specs.Prelude.{◌≡◌, ◌++◌, IfOk, OnOk};
ghost use Rattle.proto_fields.specs.Sizes.{size_of};
ghost use Rattle.proto_fields.specs.Spelling.{spell};
ghost use Rattle.proto_fields.specs.Views.{seen};
ghost use Rattle.plain_relations.specs.Plain as plain;
ghost use Rattle.plain_relations.specs.Spelled as spelled;

use cn_base::{Boxed, Copied, OutOfMemory};
use proto_fields::{MessageWriter, Record, int_size, int32_field};
use std::alloc::Global;

/// The first rows (`relations.proto`, Limit).
#[derive(Debug, Drop)]
pub struct Limit<R> {
    /// `Other(0)` where no relation is there.
    pub input: Boxed<R>,
    /// How many (field `limit`).
    pub number: i32,
}

/// All rows but the first (`relations.proto`, Offset).
#[derive(Debug, Drop)]
pub struct Offset<R> {
    /// `Other(0)` where no relation is there.
    pub input: Boxed<R>,
    /// How many are left out (field `offset`).
    pub number: i32,
}

impl<R: Copied + Drop> Copied for Limit<R> {
    fn copy(&self, alloc: Global) -> Result<Limit<R>, OutOfMemory> {
        limit_like(alloc, self, self.input.get().copy(alloc)?)
    }
}

impl<R: Copied + Drop> Copied for Offset<R> {
    fn copy(&self, alloc: Global) -> Result<Offset<R>, OutOfMemory> {
        offset_like(alloc, self, self.input.get().copy(alloc)?)
    }
}

/// The limit of this input that a message's records hold.
pub fn limit_over<R: Drop>(
    alloc: Global,
    items: &[Record],
    input: R,
) -> Result<Limit<R>, OutOfMemory>
    ensures { IfOk result (λ it. it ≡ plain.limit_of input (seen items.now)) }
{
    Ok(Limit {
        input: Boxed::new(alloc, input)?,
        number: int32_field(items, 2),
    })
}

/// The same limit of another input.
pub fn limit_like<R, S: Drop>(
    alloc: Global,
    it: &Limit<R>,
    input: S,
) -> Result<Limit<S>, OutOfMemory>
    ensures { IfOk result (λ copied. copied ≡ record { input = input; number = it.now.number }) }
{
    Ok(Limit {
        input: Boxed::new(alloc, input)?,
        number: it.number,
    })
}

/// Puts the limit's fields besides its input before what stands. Where memory runs out, nothing is promised of what stands then.
pub fn put_limit_rest<R>(out: &mut MessageWriter, it: &Limit<R>) -> Result<(), OutOfMemory>
    ensures { OnOk result (out.new ≡ spell (spelled.limit_rest it.now) ++ out.old) }
{
    out.put_int32(2, it.number)
}

/// How many bytes the limit's fields besides its input take. It takes no memory.
pub fn limit_rest_size<R>(it: &Limit<R>) -> u64
    ensures { result ≡ size_of (spelled.limit_rest it.now) }
{
    int_size(2, i64::from(it.number))
}

/// The offset of this input that a message's records hold.
pub fn offset_over<R: Drop>(
    alloc: Global,
    items: &[Record],
    input: R,
) -> Result<Offset<R>, OutOfMemory>
    ensures { IfOk result (λ it. it ≡ plain.offset_of input (seen items.now)) }
{
    Ok(Offset {
        input: Boxed::new(alloc, input)?,
        number: int32_field(items, 2),
    })
}

/// The same offset of another input.
pub fn offset_like<R, S: Drop>(
    alloc: Global,
    it: &Offset<R>,
    input: S,
) -> Result<Offset<S>, OutOfMemory>
    ensures { IfOk result (λ copied. copied ≡ record { input = input; number = it.now.number }) }
{
    Ok(Offset {
        input: Boxed::new(alloc, input)?,
        number: it.number,
    })
}

/// Puts the offset's fields besides its input before what stands. Where memory runs out, nothing is promised of what stands then.
pub fn put_offset_rest<R>(out: &mut MessageWriter, it: &Offset<R>) -> Result<(), OutOfMemory>
    ensures { OnOk result (out.new ≡ spell (spelled.offset_rest it.now) ++ out.old) }
{
    out.put_int32(2, it.number)
}

/// How many bytes the offset's fields besides its input take. It takes no memory.
pub fn offset_rest_size<R>(it: &Offset<R>) -> u64
    ensures { result ≡ size_of (spelled.offset_rest it.now) }
{
    int_size(2, i64::from(it.number))
}
