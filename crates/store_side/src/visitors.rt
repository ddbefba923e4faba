//! What takes the rows of a store's file as they are read.
ghost use Rattle.merkle_wire.proofs.PartsTold.{none_told};
ghost use Rattle.merkle_wire.specs.Parts.{HasTold};
ghost use Rattle.store_file.specs.WireRegisters.{register_encoding};
ghost use Rattle.store_side.specs.Answered.{text_encoding};

use merkle_wire::PartTeller;
use store_file::range::RowVisitor;
use store_file::{Register, StoreFault};

/// Tells rows as they are read, as far as the bytes suffice.
#[derive(Drop)]
pub(crate) struct Told {
    pub(crate) part: PartTeller,
}

impl RowVisitor for Told {
    ghost took = { λ old new. HasTold text_encoding register_encoding old.part new.part };

    ghost none = { λ told. none_told text_encoding register_encoding told.part };

    fn visit(&mut self, row: (String, Register)) -> Result<bool, StoreFault> {
        let more = self.part.add(&row)?;
        Ok(more)
    }
}
