//! The names of registers and of control and status registers.

ghost use Rattle.std.specs.Prelude.{◌≡◌, ◌<◌, ◌^◌, IfSome, map, option_map, find};
ghost use Rattle.std.specs.Option.{option_copied};
ghost use Rattle.std.specs.Str.{bytes_eq};
ghost use Rattle.fp_asm.specs.Names.{registers, register_number as register_of};
ghost use Rattle.fp_asm.specs.Names.{csrs, csr as csr_of, value_named};
ghost use Rattle.fp_asm.specs.AbstractPieces.{abstract_name};

use rv_decode::csr;

/// A name and its number.
type Name = (&'static [u8], u32);

static REGISTERS: [Name; 65] = [
    (b"x0", 0),
    (b"x1", 1),
    (b"x2", 2),
    (b"x3", 3),
    (b"x4", 4),
    (b"x5", 5),
    (b"x6", 6),
    (b"x7", 7),
    (b"x8", 8),
    (b"x9", 9),
    (b"x10", 10),
    (b"x11", 11),
    (b"x12", 12),
    (b"x13", 13),
    (b"x14", 14),
    (b"x15", 15),
    (b"x16", 16),
    (b"x17", 17),
    (b"x18", 18),
    (b"x19", 19),
    (b"x20", 20),
    (b"x21", 21),
    (b"x22", 22),
    (b"x23", 23),
    (b"x24", 24),
    (b"x25", 25),
    (b"x26", 26),
    (b"x27", 27),
    (b"x28", 28),
    (b"x29", 29),
    (b"x30", 30),
    (b"x31", 31),
    (b"zero", 0),
    (b"ra", 1),
    (b"sp", 2),
    (b"gp", 3),
    (b"tp", 4),
    (b"t0", 5),
    (b"t1", 6),
    (b"t2", 7),
    (b"s0", 8),
    (b"fp", 8),
    (b"s1", 9),
    (b"a0", 10),
    (b"a1", 11),
    (b"a2", 12),
    (b"a3", 13),
    (b"a4", 14),
    (b"a5", 15),
    (b"a6", 16),
    (b"a7", 17),
    (b"s2", 18),
    (b"s3", 19),
    (b"s4", 20),
    (b"s5", 21),
    (b"s6", 22),
    (b"s7", 23),
    (b"s8", 24),
    (b"s9", 25),
    (b"s10", 26),
    (b"s11", 27),
    (b"t3", 28),
    (b"t4", 29),
    (b"t5", 30),
    (b"t6", 31),
];

static CSRS: [Name; 9] = [
    (b"mtvec", csr::MTVEC as u32),
    (b"mscratch", csr::MSCRATCH as u32),
    (b"mepc", csr::MEPC as u32),
    (b"mcause", csr::MCAUSE as u32),
    (b"mhartid", csr::MHARTID as u32),
    (b"slots", csr::SLOTS as u32),
    (b"modes", csr::MODES as u32),
    (b"dregions", csr::DREGIONS as u32),
    (b"iregions", csr::IREGIONS as u32),
];

/// Each register's names, `x5` and `t0`, with its number.
#[tactic(auto, unfolding(crate::specs::Names::registers))]
fn register_names() -> &'static [Name]
    ensures { map abstract_name result.now ≡ registers }
{
    &REGISTERS
}

/// Each CSR's name with its number.
#[tactic(auto, unfolding(crate::specs::Names::csrs))]
fn csr_names() -> &'static [Name]
    ensures { map abstract_name result.now ≡ csrs }
{
    &CSRS
}

/// The first row of a table with this name.
fn name_row(names: &'static [Name], text: &[u8]) -> Option<&'static Name>
    ensures { option_copied result ≡ find (λ row. bytes_eq row.0.now text.now) names.now }
{
    names.iter().find(|row| row.0 == text)
}

/// The number that a table has for a name.
#[tactic(auto, using(crate::proofs::Rows::found_number))]
fn number_of(names: &'static [Name], text: &[u8]) -> Option<u32>
    ensures { result ≡ value_named (map abstract_name names.now) text.now }
{
    let row = name_row(names, text)?;
    Some(row.1)
}

/// The number of a register, by its name.
#[tactic(auto, using(crate::proofs::Rows::register_fits), unfolding(crate::proofs::Opened::number))]
pub(crate) fn register(text: &[u8]) -> Option<u8>
    ensures number { result ≡ register_of text.now }
    ensures small { IfSome result (λ n. n < 32) }
{
    let number = number_of(register_names(), text)?;
    Some(number as u8)
}

/// The number of a control and status register, by its name.
#[tactic(auto, unfolding(crate::specs::Names::csr))]
pub(crate) fn csr(text: &[u8]) -> Option<u32>
    ensures { result ≡ csr_of text.now }
{
    number_of(csr_names(), text)
}
