// What is lent.
ghost use Rattle.std.specs.Prelude.{◌≡◌, IfOk, vec_len};
ghost use Rattle.std.specs.List.{All};
ghost use Rattle.std.specs.Borrow.{sem};
ghost use Rattle.frame_pool.specs.Lending.{LendsBytes};

use std::alloc::{AllocError, Global};

/// A buffer, and the number that its pool knows it by.
#[derive(Drop)]
pub struct Frame {
    pub(crate) number: usize,
    pub(crate) bytes: Vec<u8>,
}

impl Frame {
    ghost use Rattle.frame_pool.specs.Frames.{bytes_of, first_size, size_of};

    /// A frame of so many bytes, all 0, that no pool has numbered yet.
    pub fn new(alloc: Global, page_size: u32) -> Result<Frame, AllocError>
        ensures { IfOk result (λ frame. size_of frame ≡ page_size) }
    {
        let bytes = vec![in alloc; 0u8; page_size as usize]?;
        Ok(Frame { number: 0, bytes })
    }

    /// The bytes, to be read and written.
    pub fn bytes(&mut self) -> &mut [u8]
        ensures* writes_back { sem 𝓛 (LendsBytes self.entry result) }
        ensures value { result.now ≡ bytes_of self.old }
    {
        self.bytes.as_mut_slice()
    }

    /// So many frames of one length, in bytes.
    pub fn several(alloc: Global, count: usize, page_size: u32) -> Result<Vec<Frame>, AllocError>
        ensures count { IfOk result (λ frames. vec_len frames ≡ count) }
        ensures sizes { IfOk result (λ frames. All (λ frame. size_of frame ≡ page_size) frames.items) }
        ensures alike { IfOk result (λ frames. All (λ frame. size_of frame ≡ first_size frames.items) frames.items) }
    {
        let mut frames = Vec::new(alloc);
        for _ in 0..count {
            frames.push(Frame::new(alloc, page_size)?)?;
        }
        Ok(frames)
    }
}
