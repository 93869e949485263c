ghost use Rattle.flat_tables.specs.Alignment.{LayoutsAreAligned};
ghost use Rattle.flat_tables.specs.Fields.{FindsFields, FailsOutside};
ghost use Rattle.flat_tables.specs.Found.{ReadsBack};
ghost use Rattle.flat_tables.specs.ObjectSizes.{SizesAddUp};

/// What the look-ups say of a slot is the vtable's arithmetic on the whole buffer: the field's place or that it is absent, and else the
/// first place outside the buffer. It does nothing.
pub fn slots_are_found()
    ensures found { FindsFields }
    ensures outside { FailsOutside }
{}

/// What a builder builds, a reader reads back: each field of each table at its slot with its value, each slot that isn't written as absent,
/// and each item of each vector, as deep as the object goes. It does nothing.
pub fn built_objects_are_read()
    ensures { ReadsBack }
{}

/// How many bytes an object takes in a flatbuffer: those of its own, and those of the objects that it names. It does nothing.
pub fn object_sizes_add_up()
    ensures { SizesAddUp }
{}

/// How a flatbuffer is aligned: each object stands at a multiple of 8, each field of a table at a multiple of its own size, and the items of
/// each vector at a multiple of 8. It does nothing.
pub fn layouts_are_aligned()
    ensures { LayoutsAreAligned }
{}
