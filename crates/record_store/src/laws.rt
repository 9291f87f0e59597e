// That the condition of a mounting is met at first.
ghost use Rattle.std.specs.Prelude.{◌≡◌, [], replicate};
ghost use Rattle.local_disk.specs.LocalDisk.{disk_bytes};
ghost use Rattle.record_store.specs.Images.{MountsTo, selected};
ghost use Rattle.record_store.specs.declared.slot.Slot.TheVariants.{First};

/// An empty disk mounts to the empty text, in the first slot. A call does nothing: it only tells its caller so.
pub fn empty_disk_mounts()
    ensures mounts { MountsTo [] (replicate disk_bytes 0) }
    ensures slot { selected (replicate disk_bytes 0) ≡ First }
{}
