ghost use Rattle.std.specs.Prelude.{◌≡◌, ◌%◌, None, Some, length, IsNone, IsSome, OnOk, OnErr, IfOk};
ghost use Rattle.flat_tables.specs.Layout.{CanBePut, layout};

use crate::{FlatObject, bytes, checks, objects};
use cn_base::{Bytes, OutOfMemory};
use std::alloc::Global;
use std::marker::Model;

/// A builder of one flatbuffer. Contracts see it as the bytes that it has built, or none before an object was put.
#[derive(Debug, Drop)]
pub struct Builder {
    alloc: Global,
    bytes: Option<Bytes>,
}

impl Model for Builder {
    ghost use Rattle.std.specs.Prelude.{ℕ, List, Option};

    ghost Value = { Option (List ℕ) };

    ghost view = { λ b. b.bytes };
}

impl Builder {
    /// A builder into which no object was put. It takes no memory.
    pub fn new(alloc: Global) -> Builder
        ensures { result ≡ None }
    {
        Builder { alloc, bytes: None }
    }

    /// Puts a table, with all that it names, into the flatbuffer, whose length is then a multiple of 8. No object was put before, and the
    /// object is one that a builder takes: `FlatObject::can_be_put` tells. Where there is no memory nothing is put.
    pub fn put(&mut self, object: &FlatObject) -> Result<(), OutOfMemory>
        requires first { IsNone self.old }
        requires object { CanBePut object.now }
        ensures ok { OnOk result (self.new ≡ Some (layout object.now)) }
        ensures aligned { OnOk result (length (layout object.now) % 8 ≡ 0) }
        ensures err { OnErr result (self.new ≡ self.old) }
    {
        let out = write_layout(self.alloc, object)?;
        self.bytes = Some(Bytes::from_vec(out));
        Ok(())
    }

    /// The bytes of the flatbuffer, into which an object was put.
    pub fn finish(self) -> Bytes
        requires { IsSome self }
        ensures { self ≡ Some result }
    {
        let Builder { alloc: _, bytes } = self;
        bytes.unwrap()
    }
}

/// The whole buffer: the offset of the object's table, four zeros, and the object. Its room is sized before, so nothing grows; the four bytes
/// of an offset are zeros until the object that it names is written.
fn write_layout(alloc: Global, object: &FlatObject) -> Result<Vec<u8>, OutOfMemory>
    requires { CanBePut object.now }
    ensures bytes { IfOk result (λ out. out.items ≡ layout object.now) }
    ensures aligned { OnOk result (length (layout object.now) % 8 ≡ 0) }
{
    let mut out = Vec::with_capacity(alloc, 8 + checks::size(object))?;
    bytes::write_zeros(&mut out, 8)?;
    objects::write_named(&mut out, object, 0)?;
    Ok(out)
}
