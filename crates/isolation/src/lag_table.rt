//! A theorem on the definitions of one thread: each lag is that of the table of lags. The
//! definition of an issue computes the lag case by case; the table has it by instruction.

ghost use Rattle.std.specs.Prelude.{ℕ};
ghost use Rattle.core_model.specs.Thread.{Environment, Contents, Thread};
ghost use Rattle.isolation.specs.LagLaw.{HasLagOfTable};

/// After an issue, in any environment, the thread's next instruction may issue one lag later. The
/// lag is the table's, for the instruction, whether it is a taken branch, and whether it traps.
#[tactic(auto, using(crate::proofs::Lags::issue_lag))]
pub fn each_issue_has_the_lag_of_the_table()
    ensures { (a : Environment) (m : Contents) (c : ℕ) (t : Thread) → HasLagOfTable a m c t }
{}
