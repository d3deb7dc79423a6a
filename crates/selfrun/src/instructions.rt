//! The instructions of the drawn programs.

ghost use Rattle.std.specs.Prelude.{◌≡◌, ◌<◌, ◌+◌, ◌/◌, ◌%◌, ◌==◌, if◌then◌else◌, pos, negsuc};
ghost use Rattle.rv_decode.specs.Range.{InRange};
ghost use Rattle.selfrun.specs.Drawn.{drawn_ins, next_draw};

use rv_decode::{AluOp, BranchOp, ImmOp, Ins, LoadOp, StoreOp};

/// The draw after a number: 1,664,525 times the number, plus 1,013,904,223, modulo 2^32.
#[tactic(auto, unfolding(crate::specs::Drawn::next_draw))]
pub fn next_draw(x: u32) -> u32
    ensures { result ≡ next_draw x }
{
    ((u64::from(x) * 1_664_525 + 1_013_904_223) % 0x1_0000_0000) as u32
}

/// An instruction on two registers.
fn on_two(op: AluOp, rd: u8, rs1: u8, rs2: u8) -> Ins
    ensures { result ≡ Ins.Op op rd rs1 rs2 }
{
    Ins::Op { op, rd, rs1, rs2 }
}

/// The instruction of a draw.
#[tactic(auto, unfolding(crate::specs::Drawn::drawn_ins))]
pub fn drawn_ins(x: u32) -> Ins
    ensures ins { result ≡ drawn_ins x }
    ensures range { InRange result }
{
    let a = 1 + (x / 0x100 % 7) as u8;
    let b = 1 + (x / 0x1000 % 7) as u8;
    let d = 1 + (x / 0x1_0000 % 7) as u8;
    let e = 4 * (x / 0x10_0000 % 64) as i32;
    match x / 0x1000_0000 % 8 {
        0 => on_two(AluOp::Add, d, a, b),
        1 => on_two(AluOp::Sub, d, a, b),
        2 => on_two(AluOp::Xor, d, a, b),
        3 => Ins::OpImm {
            op: ImmOp::Addi,
            rd: d,
            rs1: a,
            imm: e,
        },
        4 => on_two(AluOp::Sltu, d, a, b),
        5 => Ins::Load {
            op: LoadOp::Lw,
            rd: d,
            rs1: 8,
            imm: e,
        },
        6 => Ins::Store {
            op: StoreOp::Sw,
            rs1: 8,
            rs2: b,
            imm: e,
        },
        _ => Ins::Branch {
            op: BranchOp::Bne,
            rs1: a,
            rs2: b,
            off: 8,
        },
    }
}

/// The first instruction of thread k: the upper part of the address of its data, into x8.
pub fn upper_ins(k: u8) -> Ins
    requires { k < 8 }
    ensures ins { result ≡ Ins.Lui 8 (0x20000 + (k + 1) / 2) }
    ensures range { InRange result }
{
    Ins::Lui {
        rd: 8,
        imm: 0x2_0000 + (u32::from(k) + 1) / 2,
    }
}

/// The second one: the lower part of that address.
pub fn lower_ins(k: u8) -> Ins
    ensures ins { result ≡ Ins.OpImm ImmOp.Addi 8 8 (if k % 2 == 0 then pos 0 else negsuc 2047) }
    ensures range { InRange result }
{
    Ins::OpImm {
        op: ImmOp::Addi,
        rd: 8,
        rs1: 8,
        imm: if k % 2 == 0 { 0 } else { -2048 },
    }
}

/// The instruction after the drawn ones: a count in x1.
pub fn count_ins() -> Ins
    ensures ins { result ≡ Ins.OpImm ImmOp.Addi 1 1 (pos 1) }
    ensures range { InRange result }
{
    Ins::OpImm {
        op: ImmOp::Addi,
        rd: 1,
        rs1: 1,
        imm: 1,
    }
}

/// The last one: back to the first of the drawn ones.
pub fn back_ins() -> Ins
    ensures ins { result ≡ Ins.Jal 0 (negsuc 499) }
    ensures range { InRange result }
{
    Ins::Jal { rd: 0, off: -500 }
}
