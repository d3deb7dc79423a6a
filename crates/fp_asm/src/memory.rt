//! The words that were written, by address.

ghost use Rattle.std.specs.Prelude.{◌≡◌, OnOk};
ghost use Rattle.fp_asm.specs.Second.{with_words};

use std::alloc::AllocError;
use std::collections::BTreeMap;

/// Writes words from a location on.
///
/// # Errors
///
/// Out of memory.
pub(crate) fn write_words(
    memory: &mut BTreeMap<u32, u32>,
    location: u32,
    words: &[u32],
) -> Result<(), AllocError>
    ensures { OnOk result
        (memory.new.entries ≡ with_words memory.old.entries location words.now) }
{
    let mut a = location;
    for word in words {
        memory.insert(a, *word)?;
        a = a.wrapping_add(4);
    }
    Ok(())
}
