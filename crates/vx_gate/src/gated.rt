use crate::gate::Gate;
use vx_chunk::Chunk;
use vx_fault::Fallible;
use vx_sink::{CompressError, CompressorPlugin};

/// A column's compressor behind a gate: it compresses as that one does.
pub struct Gated<'a, C, G> {
    pub compressor: C,
    pub gate: &'a G,
    pub column: u64,
}

impl<C: CompressorPlugin, G> Fallible for Gated<'_, C, G> {
    ghost faults = { λ g. C.faults g.compressor };

    ghost may_fail = { λ g. C.may_fail g.compressor };

    ghost must_fail = { λ g. C.must_fail g.compressor };
}

impl<C: CompressorPlugin, G: Gate> CompressorPlugin for Gated<'_, C, G> {
    ghost kind = { λ g. C.kind g.compressor };

    ghost image = { C.image };

    ghost keeps = { C.keeps };

    fn compress_chunk(&mut self, which: u32, chunk: &Chunk) -> Result<Chunk, CompressError> {
        self.gate.before(self.column);
        self.compressor.compress_chunk(which, chunk)
    }
}
