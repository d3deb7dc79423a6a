//! The words of a scratchpad at the start.

ghost use Rattle.std.specs.Prelude.{◌≡◌, ◌+◌, ◌<◌, ◌^◌, IfOk};
ghost use Rattle.setup_model.specs.Start.{words_from};

use fp_image::Image;
use std::alloc::{AllocError, Global};

/// The words of an image from an address on, `size` bytes of them. The address is a multiple of
/// four, and the bytes end below 2^32.
///
/// # Errors
///
/// Out of memory.
#[tactic(auto, unfolding(crate::specs::Start::words_from))]
pub fn word_list(alloc: Global, image: &Image, base: u32, size: u32) -> Result<Vec<u32>, AllocError>
    requires { base + size < 2 ^ 32 }
    ensures { IfOk result (λ words. words.items ≡ words_from image.now base size) }
{
    let mut words = Vec::with_capacity(alloc, size as usize / 4)?;
    for k in 0..size / 4 {
        words.push(image.word(base + 4 * k))?;
    }
    Ok(words)
}
