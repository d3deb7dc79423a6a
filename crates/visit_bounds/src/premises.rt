//! Simpler premises of the theorems on visits, of a section by itself and through calls. The
//! contract of each call is a theorem; the call does nothing. The statements are in
//! specs/Premises.antt.

ghost use Rattle.visit_bounds.specs.Premises.{AlikeHasSameWords, AlikeHasSameWordsOfFunctions};
ghost use Rattle.visit_bounds.specs.Premises.{HostHasWords, HostHasWordsOfFunctions};
ghost use Rattle.visit_bounds.specs.Premises.{IssuesAreEarlier, PhaseIsSet};
ghost use Rattle.visit_bounds.specs.Premises.{QuietKeepsScheduling, SetupIsSet, StartIsSet};

use core_model::tells_picks;

/// While no issue writes slots or modes, each cycle of a run is picked by those of the start. A run
/// that writes no configuration register is such a run. So the bounds hold for all its visits,
/// which are in these cycles.
pub fn start_is_set()
    ensures quiet { QuietKeepsScheduling }
    ensures start { StartIsSet }
    ensures setup { SetupIsSet }
    ensures earlier { IssuesAreEarlier }
{}

/// Each cycle is picked by the setting that `phases` writes for it. So a visit keeps the bound for
/// the slots that all settings of its cycles have, if the thread is hard and active in them.
pub fn phase_is_set()
    ensures { PhaseIsSet }
{
    tells_picks();
}

/// Where all words of a section are the same, its reachable words are. Through calls, these are the
/// words of the reached functions.
pub fn has_same_words()
    ensures host { HostHasWords }
    ensures host_of_functions { HostHasWordsOfFunctions }
    ensures alike { AlikeHasSameWords }
    ensures alike_of_functions { AlikeHasSameWordsOfFunctions }
{}
