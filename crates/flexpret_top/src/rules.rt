//! A theorem that the contract of [`flexpret`](crate::flexpret) is used with. The call does
//! nothing.

ghost use Rattle.flexpret_top.specs.ProgramRules.{ProgramsKeepRules};

use fp_setup::accepted_keep_rules;

/// The setup of a program that files have keeps the rules, which theorems on machines need.
pub fn programs_keep_rules()
    ensures { ProgramsKeepRules }
{
    accepted_keep_rules();
}
