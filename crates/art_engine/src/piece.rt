//! Room for a piece of input.
ghost use Rattle.std.specs.Prelude.{◌<◌, length};

use std::alloc::Global;

/// The bytes that are read at a time, at most.
const PIECE: usize = 20_480;

/// The same, where there is no memory for so many.
const LEAST: usize = 512;

/// Room for a piece of input: for 20,480 bytes, or where there is no memory for them for 512, which stand here.
#[derive(Drop)]
pub(crate) struct PieceRoom {
    many: Vec<u8>,
    few: [u8; LEAST],
}

impl PieceRoom {
    /// Room for as many bytes as there is memory for.
    pub(crate) fn new(alloc: Global) -> Self {
        let many = match vec![in alloc; 0; PIECE] {
            Ok(many) => many,
            Err(_) => Vec::new(alloc),
        };
        PieceRoom {
            many,
            few: [0; LEAST],
        }
    }

    /// Lends it, with what was read before.
    #[inline]
    pub(crate) fn as_mut_slice(&mut self) -> &mut [u8]
        ensures { 0 < length result.now }
    {
        if self.many.is_empty() {
            return &mut self.few;
        }
        self.many.as_mut_slice()
    }
}
