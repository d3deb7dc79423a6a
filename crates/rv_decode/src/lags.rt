//! How long a thread waits after an instruction.

ghost use Rattle.std.specs.Prelude.{◌≡◌, ◌≤◌};
ghost use Rattle.rv_decode.specs.Lag.{lag, redirect_lag};

use crate::instruction::Ins;

/// The lag of an instruction that the next word follows at once, in cycles.
pub const PLAIN_LAG: u64 = 1;

/// The lag of an instruction whose value comes late, in cycles: a load, a multiplication or a
/// division.
pub const LATE_LAG: u64 = 2;

/// The lag of an instruction that redirects the thread, in cycles.
pub const REDIRECT_LAG: u64 = 3;

/// The lag of `i`, 1 to 3 cycles: after its issue in cycle c, the thread's next instruction may
/// issue from cycle c plus the lag on. `taken` is whether `i` is a taken branch, and `trapped`
/// whether it traps. The table is this project's profile.
#[tactic(auto, unfolding(crate::specs::Lag::lag))]
pub fn lag_of(i: &Ins, taken: bool, trapped: bool) -> u64
    ensures table { result ≡ lag i.now taken trapped }
    ensures short { result ≤ redirect_lag }
{
    if trapped {
        return REDIRECT_LAG;
    }
    match *i {
        Ins::Load { .. } | Ins::Muldiv { .. } => LATE_LAG,
        Ins::Branch { .. } if !taken => PLAIN_LAG,
        Ins::Branch { .. }
        | Ins::Jal { .. }
        | Ins::Jalr { .. }
        | Ins::Mret
        | Ins::Csr { .. }
        | Ins::Du { .. }
        | Ins::Wu { .. }
        | Ins::Ee { .. }
        | Ins::De
        | Ins::Ecall
        | Ins::Ebreak
        | Ins::Illegal { .. } => REDIRECT_LAG,
        Ins::Lui { .. }
        | Ins::Auipc { .. }
        | Ins::Store { .. }
        | Ins::OpImm { .. }
        | Ins::Shift { .. }
        | Ins::Op { .. }
        | Ins::Fence { .. }
        | Ins::Gt { .. }
        | Ins::Gth { .. } => PLAIN_LAG,
    }
}
