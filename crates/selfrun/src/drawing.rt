//! The setup and the image of the machine's own run.

ghost use Rattle.std.specs.Prelude.{◌≡◌, ◌<◌, ◌++◌, ◌∷◌, [], length, OnOk, IfOk};
ghost use Rattle.byteorder.specs.Endian.{little_bytes};
ghost use Rattle.rv_decode.specs.Encoding.{encoding_of};
ghost use Rattle.rv_decode.specs.Range.{InRange};
ghost use Rattle.selfrun.specs.Drawn.{bytes_of, draw, drawn_from};
ghost use Rattle.selfrun.specs.Drawn.{instructions, own_setup, programs};

use crate::instructions::{back_ins, count_ins, drawn_ins, lower_ins, next_draw, upper_ins};
use byteorder::{ByteOrder, LittleEndian};
use fp_image::{Bytes, Image};
use fp_setup::Setup;
use rv_decode::{Ins, encode};
use std::alloc::{AllocError, Global};

/// The number of drawn instructions of a thread.
const DRAWS: usize = 124;

/// Appends an instruction's word.
#[tactic(auto, unfolding(crate::specs::Drawn::bytes_of))]
fn push_ins(bytes: &mut Vec<u8>, ins: &Ins) -> Result<(), AllocError>
    requires { InRange ins.now }
    ensures { OnOk result (bytes.new.items ≡ bytes.old.items ++ bytes_of (ins.now ∷ [])) }
{
    let mut buffer = [0; 4];
    LittleEndian::write_u32(&mut buffer, encode(ins));
    bytes.extend_from_slice(&buffer)
}

/// Appends [`DRAWS`] drawn instructions, and returns the last draw.
fn push_drawn(bytes: &mut Vec<u8>, first: u32) -> Result<u32, AllocError>
    ensures bytes { OnOk result (bytes.new.items ≡ bytes.old.items
        ++ bytes_of (drawn_from first 124)) }
    ensures last { IfOk result (λ x. x ≡ draw first 124) }
{
    let mut x = first;
    for _draw in 0..DRAWS {
        x = next_draw(x);
        push_ins(bytes, &drawn_ins(x))?;
    }
    Ok(x)
}

/// The bytes of thread k, which draws on from a number, and its last draw.
fn thread_bytes(alloc: Global, k: u8, first: u32) -> Result<(Vec<u8>, u32), AllocError>
    requires { k < 8 }
    ensures bytes { IfOk result (λ p. p.0.items ≡ bytes_of (instructions first k)) }
    ensures last { IfOk result (λ p. p.1 ≡ draw first 124) }
{
    let mut bytes = Vec::new(alloc);
    push_ins(&mut bytes, &upper_ins(k))?;
    push_ins(&mut bytes, &lower_ins(k))?;
    let last = push_drawn(&mut bytes, first)?;
    push_ins(&mut bytes, &count_ins())?;
    push_ins(&mut bytes, &back_ins())?;
    Ok((bytes, last))
}

/// The programs that a number draws: a segment of 128 words for each thread k, at the address 2,048
/// k. Each thread's draws continue after those of the thread before it.
///
/// # Errors
///
/// Out of memory.
pub fn drawn_image(alloc: Global, number: u32) -> Result<Image, AllocError>
    ensures { IfOk result (λ i. i ≡ programs number) }
{
    let mut image = Image::new(alloc);
    let mut x = number;
    for k in 0..8u8 {
        let (bytes, last) = thread_bytes(alloc, k, x)?;
        image.add(2048 * u32::from(k), Bytes::from_vec(bytes))?;
        x = last;
    }
    Ok(image)
}

/// The setup of the machine's own run. The period is 10 ns. Threads 0 to 3 are hard and confined,
/// with one slot each. Four slots follow for threads 4 to 7, which are soft. Each thread enters at
/// its own segment.
///
/// # Errors
///
/// Out of memory.
pub fn own_setup(alloc: Global) -> Result<Setup, AllocError>
    ensures { IfOk result (λ s. s ≡ own_setup) }
{
    Setup::of_words(
        alloc,
        10,
        0xeeee_3210,
        0xaa00,
        0x7654_3210,
        0xc888_3210,
        [0, 2048, 4096, 6144, 8192, 10_240, 12_288, 14_336],
        [true, true, true, true, false, false, false, false],
    )
}
