//! Numbers and documents that look drawn, the same in each run.
ghost use Rattle.std.specs.Prelude.{◌<◌};

use std::alloc::{AllocError, Global};

/// Draws one number after the other, by a linear congruence modulo 2^64.
#[derive(Drop)]
pub(crate) struct Draw {
    state: u64,
}

impl Draw {
    /// Always the same numbers for the same seed.
    pub(crate) fn new(seed: u64) -> Draw {
        Draw { state: seed }
    }

    /// A number below `bound`.
    pub(crate) fn below(&mut self, bound: usize) -> usize
        requires { 0 < bound }
        ensures { result < bound }
    {
        self.state = self
            .state
            .wrapping_mul(6_364_136_223_846_793_005)
            .wrapping_add(1_442_695_040_888_963_407);
        (self.state >> 33) as usize % bound
    }

    /// A document of at most `most` bytes, each one of `bytes`; none where there are no bytes.
    pub(crate) fn document(
        &mut self,
        alloc: Global,
        bytes: &[u8],
        most: u16,
    ) -> Result<Vec<u8>, AllocError> {
        let mut document = Vec::new(alloc);
        if bytes.is_empty() {
            return Ok(document);
        }
        for _ in 0..self.below(usize::from(most) + 1) {
            document.push(bytes[self.below(bytes.len())])?;
        }
        Ok(document)
    }
}
