//! The images that the table compressor makes of a chunk.
//! The function here has an empty body; its contract is a law, proved for every chunk.
#![tactic(auto)]

ghost use Rattle.vx_compressor_spec.specs.Statements.{ImagesKeepCells};

/// The image of a whole chunk is a whole chunk of the same type with the same cells.
pub fn images_keep_cells()
    ensures { ImagesKeepCells }
{}
