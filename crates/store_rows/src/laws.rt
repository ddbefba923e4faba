//! A law for callers. A call of it costs nothing when it runs.
ghost use Rattle.store_rows.specs.InStep.{BeginsInStep};

/// A table of entries without rows and a table of cells without rows are in step, so an empty store needs no call to begin with.
pub fn no_entries_and_no_cells_are_in_step()
    ensures { BeginsInStep }
{}
