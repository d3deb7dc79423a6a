//! The mnemonics: the name of each, the form of its operands, and its kind of output.

ghost use Rattle.std.specs.Prelude.{◌≡◌, find, map, option_map, take, drop};
ghost use Rattle.std.specs.Option.{option_copied};
ghost use Rattle.std.specs.Str.{bytes_eq};
ghost use Rattle.fp_asm.specs.Mnemonics.{mnemonics, mnemonic as mnemonic_of};
ghost use Rattle.fp_asm.specs.AbstractPieces.{abstract_mnemonic};

use rv_decode::{AluOp, BranchOp, CsrKind, ImmOp, LoadOp, MulOp, ShiftOp, StoreOp};

/// The kind of an operand, and the field that it sets.
#[derive(Clone, Copy)]
pub(crate) enum Slot {
    /// A register that is written.
    Rd,
    /// The first register that is read.
    Rs1,
    /// The second register that is read.
    Rs2,
    /// A control and status register, by number or name.
    Csr,
    /// A number with an optional `-`.
    Number,
    /// A number and a base register, `N(rs1)`.
    Memory,
    /// A number, or a label plus or minus a number.
    Value,
}

/// An instruction whose operands are only registers and numbers.
#[derive(Clone, Copy)]
pub(crate) enum Plain {
    /// An operation on two registers.
    Op(AluOp),
    /// A multiplication or division.
    Muldiv(MulOp),
    /// An operation on a register and an immediate.
    OpImm(ImmOp),
    /// A shift by a constant amount.
    Shift(ShiftOp),
    /// A load.
    Load(LoadOp),
    /// A store.
    Store(StoreOp),
    /// JALR.
    Jalr,
    /// LUI.
    Lui,
    /// AUIPC.
    Auipc,
    /// With a register.
    Csr(CsrKind),
    /// With a number, 0 to 31.
    CsrImm(CsrKind),
    /// GT.
    Gt,
    /// GTH.
    Gth,
    /// DU.
    Du,
    /// WU.
    Wu,
    /// EE.
    Ee,
    /// DE.
    De,
    /// ECALL.
    Ecall,
    /// EBREAK.
    Ebreak,
    /// MRET.
    Mret,
    /// FENCE.
    Fence,
    /// FENCE.I.
    FenceI,
    /// XORI with -1.
    Not,
    /// JALR to the register 1.
    Ret,
}

/// The output of a mnemonic.
#[derive(Clone, Copy)]
pub(crate) enum Makes {
    /// An instruction whose operands are only registers and numbers.
    Plain(Plain),
    /// A conditional branch to an address.
    Branch(BranchOp),
    /// A jump to an address.
    Jal,
    /// A number in a register.
    Li,
    /// An address in a register.
    La,
    /// Words.
    Words,
    /// A new location.
    Org,
    /// Zero bytes.
    Space,
}

/// A row of the table. An operand that it does not have is register 0 or the number 0. `.word`
/// takes one or more operands of its form.
#[derive(Clone, Copy)]
pub(crate) struct Row {
    /// The mnemonic, as a source has it.
    pub(crate) name: &'static [u8],
    /// The operands between the commas, from left to right.
    pub(crate) form: &'static [Slot],
    /// Its output.
    pub(crate) makes: Makes,
}

macro_rules! row {
    ($name:literal, [$($slot:ident),*], $($makes:tt)*) => {
        Row { name: $name, form: &[$(Slot::$slot),*], makes: Makes::$($makes)* }
    };
}

macro_rules! plain {
    ($name:literal, [$($slot:ident),*], $($makes:tt)*) => {
        Row { name: $name, form: &[$(Slot::$slot),*], makes: Makes::Plain(Plain::$($makes)*) }
    };
}

/// The rows that work on registers and numbers.
static COMPUTING: [Row; 27] = [
    plain!(b"add", [Rd, Rs1, Rs2], Op(AluOp::Add)),
    plain!(b"sub", [Rd, Rs1, Rs2], Op(AluOp::Sub)),
    plain!(b"sll", [Rd, Rs1, Rs2], Op(AluOp::Sll)),
    plain!(b"slt", [Rd, Rs1, Rs2], Op(AluOp::Slt)),
    plain!(b"sltu", [Rd, Rs1, Rs2], Op(AluOp::Sltu)),
    plain!(b"xor", [Rd, Rs1, Rs2], Op(AluOp::Xor)),
    plain!(b"srl", [Rd, Rs1, Rs2], Op(AluOp::Srl)),
    plain!(b"sra", [Rd, Rs1, Rs2], Op(AluOp::Sra)),
    plain!(b"or", [Rd, Rs1, Rs2], Op(AluOp::Or)),
    plain!(b"and", [Rd, Rs1, Rs2], Op(AluOp::And)),
    plain!(b"mul", [Rd, Rs1, Rs2], Muldiv(MulOp::Mul)),
    plain!(b"mulh", [Rd, Rs1, Rs2], Muldiv(MulOp::Mulh)),
    plain!(b"mulhsu", [Rd, Rs1, Rs2], Muldiv(MulOp::Mulhsu)),
    plain!(b"mulhu", [Rd, Rs1, Rs2], Muldiv(MulOp::Mulhu)),
    plain!(b"div", [Rd, Rs1, Rs2], Muldiv(MulOp::Div)),
    plain!(b"divu", [Rd, Rs1, Rs2], Muldiv(MulOp::Divu)),
    plain!(b"rem", [Rd, Rs1, Rs2], Muldiv(MulOp::Rem)),
    plain!(b"remu", [Rd, Rs1, Rs2], Muldiv(MulOp::Remu)),
    plain!(b"addi", [Rd, Rs1, Number], OpImm(ImmOp::Addi)),
    plain!(b"slti", [Rd, Rs1, Number], OpImm(ImmOp::Slti)),
    plain!(b"sltiu", [Rd, Rs1, Number], OpImm(ImmOp::Sltiu)),
    plain!(b"xori", [Rd, Rs1, Number], OpImm(ImmOp::Xori)),
    plain!(b"ori", [Rd, Rs1, Number], OpImm(ImmOp::Ori)),
    plain!(b"andi", [Rd, Rs1, Number], OpImm(ImmOp::Andi)),
    plain!(b"slli", [Rd, Rs1, Number], Shift(ShiftOp::Slli)),
    plain!(b"srli", [Rd, Rs1, Number], Shift(ShiftOp::Srli)),
    plain!(b"srai", [Rd, Rs1, Number], Shift(ShiftOp::Srai)),
];

/// The rows that access memory, change control flow, or concern the thread and its time.
static ACTING: [Row; 35] = [
    plain!(b"lb", [Rd, Memory], Load(LoadOp::Lb)),
    plain!(b"lh", [Rd, Memory], Load(LoadOp::Lh)),
    plain!(b"lw", [Rd, Memory], Load(LoadOp::Lw)),
    plain!(b"lbu", [Rd, Memory], Load(LoadOp::Lbu)),
    plain!(b"lhu", [Rd, Memory], Load(LoadOp::Lhu)),
    plain!(b"jalr", [Rd, Memory], Jalr),
    plain!(b"sb", [Rs2, Memory], Store(StoreOp::Sb)),
    plain!(b"sh", [Rs2, Memory], Store(StoreOp::Sh)),
    plain!(b"sw", [Rs2, Memory], Store(StoreOp::Sw)),
    row!(b"beq", [Rs1, Rs2, Value], Branch(BranchOp::Beq)),
    row!(b"bne", [Rs1, Rs2, Value], Branch(BranchOp::Bne)),
    row!(b"blt", [Rs1, Rs2, Value], Branch(BranchOp::Blt)),
    row!(b"bge", [Rs1, Rs2, Value], Branch(BranchOp::Bge)),
    row!(b"bltu", [Rs1, Rs2, Value], Branch(BranchOp::Bltu)),
    row!(b"bgeu", [Rs1, Rs2, Value], Branch(BranchOp::Bgeu)),
    row!(b"jal", [Rd, Value], Jal),
    plain!(b"lui", [Rd, Number], Lui),
    plain!(b"auipc", [Rd, Number], Auipc),
    plain!(b"csrrw", [Rd, Csr, Rs1], Csr(CsrKind::Rw)),
    plain!(b"csrrs", [Rd, Csr, Rs1], Csr(CsrKind::Rs)),
    plain!(b"csrrc", [Rd, Csr, Rs1], Csr(CsrKind::Rc)),
    plain!(b"csrrwi", [Rd, Csr, Number], CsrImm(CsrKind::Rwi)),
    plain!(b"csrrsi", [Rd, Csr, Number], CsrImm(CsrKind::Rsi)),
    plain!(b"csrrci", [Rd, Csr, Number], CsrImm(CsrKind::Rci)),
    plain!(b"gt", [Rd], Gt),
    plain!(b"gth", [Rd], Gth),
    plain!(b"du", [Rs1, Rs2], Du),
    plain!(b"wu", [Rs1, Rs2], Wu),
    plain!(b"ee", [Rs1, Rs2], Ee),
    plain!(b"de", [], De),
    plain!(b"ecall", [], Ecall),
    plain!(b"ebreak", [], Ebreak),
    plain!(b"mret", [], Mret),
    plain!(b"fence", [], Fence),
    plain!(b"fence.i", [], FenceI),
];

/// The pseudo-instructions and directives.
static SHORTHANDS: [Row; 16] = [
    plain!(b"nop", [], OpImm(ImmOp::Addi)),
    plain!(b"mv", [Rd, Rs1], OpImm(ImmOp::Addi)),
    plain!(b"not", [Rd, Rs1], Not),
    plain!(b"neg", [Rd, Rs2], Op(AluOp::Sub)),
    row!(b"j", [Value], Jal),
    plain!(b"jr", [Rs1], Jalr),
    plain!(b"ret", [], Ret),
    row!(b"beqz", [Rs1, Value], Branch(BranchOp::Beq)),
    row!(b"bnez", [Rs1, Value], Branch(BranchOp::Bne)),
    plain!(b"csrr", [Rd, Csr], Csr(CsrKind::Rs)),
    plain!(b"csrw", [Csr, Rs1], Csr(CsrKind::Rw)),
    row!(b"li", [Rd, Number], Li),
    row!(b"la", [Rd, Value], La),
    row!(b".word", [Value], Words),
    row!(b".org", [Number], Org),
    row!(b".space", [Number], Space),
];

/// The mnemonics that compute a register from registers and an immediate.
#[tactic(auto, unfolding(crate::specs::Mnemonics::mnemonics))]
fn computing() -> &'static [Row]
    ensures { map abstract_mnemonic result.now ≡ take 27 mnemonics }
{
    &COMPUTING
}

/// The mnemonics that jump, load, store, or reach a CSR or the timer.
#[tactic(auto, unfolding(crate::specs::Mnemonics::mnemonics))]
fn acting() -> &'static [Row]
    ensures { map abstract_mnemonic result.now ≡ take 35 (drop 27 mnemonics) }
{
    &ACTING
}

/// The pseudo-instructions, such as `li` and `ret`.
#[tactic(auto, unfolding(crate::specs::Mnemonics::mnemonics))]
fn shorthands() -> &'static [Row]
    ensures { map abstract_mnemonic result.now ≡ drop 62 mnemonics }
{
    &SHORTHANDS
}

/// The first row of a table with this mnemonic.
fn mnemonic_row(rows: &'static [Row], text: &[u8]) -> Option<&'static Row>
    ensures { option_copied result ≡ find (λ row. bytes_eq row.name.now text.now) rows.now }
{
    rows.iter().find(|row| row.name == text)
}

/// The row of a name.
pub(crate) fn mnemonic(text: &[u8]) -> Option<&'static Row>
    ensures { option_map abstract_mnemonic (option_copied result) ≡ mnemonic_of text.now }
{
    if let Some(row) = mnemonic_row(computing(), text) {
        return Some(row);
    }
    if let Some(row) = mnemonic_row(acting(), text) {
        return Some(row);
    }
    mnemonic_row(shorthands(), text)
}
