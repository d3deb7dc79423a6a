//! The mnemonics of the operations, and the names of control and status registers.

ghost use Rattle.std.specs.Prelude.{◌≡◌, ◌≤◌, IfSome, IfNone, length};
ghost use Rattle.rv_disasm.specs.Names.{branch_name, load_name, store_name, imm_name};
ghost use Rattle.rv_disasm.specs.Names.{shift_name, alu_name, mul_name, csr_name};
ghost use Rattle.rv_disasm.specs.TextTokens.{csr_token, digits, named};

use rv_decode::{AluOp, BranchOp, CsrKind, ImmOp, LoadOp, MulOp, ShiftOp, StoreOp, csr};

/// The mnemonic of a branch.
pub fn branch_name(op: BranchOp) -> &'static str
    ensures { result.now ≡ branch_name op }
{
    match op {
        BranchOp::Beq => "beq",
        BranchOp::Bne => "bne",
        BranchOp::Blt => "blt",
        BranchOp::Bge => "bge",
        BranchOp::Bltu => "bltu",
        BranchOp::Bgeu => "bgeu",
    }
}

/// The mnemonic of a load.
pub fn load_name(op: LoadOp) -> &'static str
    ensures { result.now ≡ load_name op }
{
    match op {
        LoadOp::Lb => "lb",
        LoadOp::Lh => "lh",
        LoadOp::Lw => "lw",
        LoadOp::Lbu => "lbu",
        LoadOp::Lhu => "lhu",
    }
}

/// The mnemonic of a store.
pub fn store_name(op: StoreOp) -> &'static str
    ensures { result.now ≡ store_name op }
{
    match op {
        StoreOp::Sb => "sb",
        StoreOp::Sh => "sh",
        StoreOp::Sw => "sw",
    }
}

/// The mnemonic of an operation on a register and an immediate.
pub fn imm_name(op: ImmOp) -> &'static str
    ensures { result.now ≡ imm_name op }
{
    match op {
        ImmOp::Addi => "addi",
        ImmOp::Slti => "slti",
        ImmOp::Sltiu => "sltiu",
        ImmOp::Xori => "xori",
        ImmOp::Ori => "ori",
        ImmOp::Andi => "andi",
    }
}

/// The mnemonic of a shift by a constant amount.
pub fn shift_name(op: ShiftOp) -> &'static str
    ensures { result.now ≡ shift_name op }
{
    match op {
        ShiftOp::Slli => "slli",
        ShiftOp::Srli => "srli",
        ShiftOp::Srai => "srai",
    }
}

/// The mnemonic of an operation on two registers.
pub fn alu_name(op: AluOp) -> &'static str
    ensures { result.now ≡ alu_name op }
{
    match op {
        AluOp::Add => "add",
        AluOp::Sub => "sub",
        AluOp::Sll => "sll",
        AluOp::Slt => "slt",
        AluOp::Sltu => "sltu",
        AluOp::Xor => "xor",
        AluOp::Srl => "srl",
        AluOp::Sra => "sra",
        AluOp::Or => "or",
        AluOp::And => "and",
    }
}

/// The mnemonic of a multiplication or division.
pub fn mul_name(op: MulOp) -> &'static str
    ensures { result.now ≡ mul_name op }
{
    match op {
        MulOp::Mul => "mul",
        MulOp::Mulh => "mulh",
        MulOp::Mulhsu => "mulhsu",
        MulOp::Mulhu => "mulhu",
        MulOp::Div => "div",
        MulOp::Divu => "divu",
        MulOp::Rem => "rem",
        MulOp::Remu => "remu",
    }
}

/// The mnemonic of an instruction on control and status registers.
pub fn csr_op_name(op: CsrKind) -> &'static str
    ensures { result.now ≡ csr_name op }
{
    match op {
        CsrKind::Rw => "csrrw",
        CsrKind::Rs => "csrrs",
        CsrKind::Rc => "csrrc",
        CsrKind::Rwi => "csrrwi",
        CsrKind::Rsi => "csrrsi",
        CsrKind::Rci => "csrrci",
    }
}

/// The name of a control and status register, if the assembler has one.
pub fn csr_name(csr: u16) -> Option<&'static str>
    ensures name { IfSome result (λ name. csr_token csr ≡ named name.now) }
    ensures number { IfNone result (csr_token csr ≡ digits 3 csr) }
    ensures short { IfSome result (λ name. length name.now ≤ 8) }
{
    Some(match csr {
        csr::MTVEC => "mtvec",
        csr::MSCRATCH => "mscratch",
        csr::MEPC => "mepc",
        csr::MCAUSE => "mcause",
        csr::MHARTID => "mhartid",
        csr::SLOTS => "slots",
        csr::MODES => "modes",
        csr::DREGIONS => "dregions",
        csr::IREGIONS => "iregions",
        _ => return None,
    })
}
