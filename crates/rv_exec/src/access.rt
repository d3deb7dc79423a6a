//! The bytes of an aligned word that a load reads and a store writes.

ghost use Rattle.std.specs.Prelude.{◌≡◌, ◌<◌, ◌*◌, ◌/◌, ◌%◌, ◌^◌};
ghost use Rattle.rv_exec.specs.Access.{load_size, store_size, loaded_value, lanes};
ghost use Rattle.rv_exec.specs.Line.{IsWidth};

use crate::outcome::{ALL_LANES, Lanes};
use rv_decode::{LoadOp, StoreOp};

/// The size of a load: 1, 2 or 4 bytes.
pub fn load_size(op: LoadOp) -> u8
    ensures size { result ≡ load_size op }
    ensures width { IsWidth result }
{
    match op {
        LoadOp::Lb | LoadOp::Lbu => 1,
        LoadOp::Lh | LoadOp::Lhu => 2,
        LoadOp::Lw => 4,
    }
}

/// The number of bytes that a store writes: 1, 2 or 4.
pub fn store_size(op: StoreOp) -> u8
    ensures size { result ≡ store_size op }
    ensures width { IsWidth result }
{
    match op {
        StoreOp::Sb => 1,
        StoreOp::Sh => 2,
        StoreOp::Sw => 4,
    }
}

/// The value of a load at `address`, a multiple of its size, from the aligned word that contains
/// it. The word is little endian (RISC-V unprivileged manual, "Load and Store Instructions").
#[tactic(auto, unfolding(crate::specs::Access::loaded_value))]
pub fn load_value(op: LoadOp, address: u32, word: u32) -> u32
    requires { address % load_size op ≡ 0 }
    ensures { result ≡ loaded_value op address word }
{
    let bytes = bytes_from(word, address);
    let byte = (bytes & 0xff) as u8;
    let half = (bytes & 0xffff) as u16;
    match op {
        LoadOp::Lb => i32::from(byte.cast_signed()).cast_unsigned(),
        LoadOp::Lh => i32::from(half.cast_signed()).cast_unsigned(),
        LoadOp::Lw => bytes,
        LoadOp::Lbu => u32::from(byte),
        LoadOp::Lhu => u32::from(half),
    }
}

/// The bytes of an aligned word from the lane of an address on.
#[tactic(auto, using(crate::proofs::ByteLanes::lane_power))]
fn bytes_from(word: u32, address: u32) -> u32
    ensures { result ≡ word / 256 ^ (address % 4) }
{
    word >> (address % 4 * 8)
}

/// The bytes of `b` that a store at `address`, a multiple of its size, writes in the aligned word
/// that contains it (RISC-V unprivileged manual, "Load and Store Instructions").
#[tactic(auto, unfolding(crate::specs::Access::lanes_at))]
pub fn store_lanes(op: StoreOp, address: u32, b: u32) -> Lanes
    requires { address % store_size op ≡ 0 }
    ensures { result ≡ lanes op address b }
{
    match op {
        StoreOp::Sb => in_lanes(address, 0b0001, b & 0xff),
        StoreOp::Sh => in_lanes(address, 0b0011, b & 0xffff),
        StoreOp::Sw => in_lanes(address, ALL_LANES, b),
    }
}

/// The lanes of the lowest bytes of a word, moved to the lane of an address.
#[tactic(auto, using(crate::proofs::ByteLanes::lane_power))]
fn in_lanes(address: u32, mask: u8, value: u32) -> Lanes
    requires mask { mask * 2 ^ (address % 4) < 2 ^ 8 }
    requires value { value * 256 ^ (address % 4) < 2 ^ 32 }
    ensures { result ≡ record {
      mask = mask * 2 ^ (address % 4);
      value = value * 256 ^ (address % 4);
    } }
{
    let lane = address % 4;
    Lanes {
        mask: mask << lane,
        value: value << (lane * 8),
    }
}
