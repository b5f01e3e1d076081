// A law of batches, which follows from the definitions alone.
ghost use Rattle.std.specs.Prelude.{List};
ghost use mathlib.Core.List.{IsPrefix};
ghost use Rattle.snapshot_readers.specs.Batches.{Batch, joined};

/// Where some batches are a prefix of others, their transactions are a prefix of the others' transactions.
pub fn prefixes_join()
    ensures { (one other : List Batch) → IsPrefix one other → IsPrefix (joined one) (joined other) }
{}
