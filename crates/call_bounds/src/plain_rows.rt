//! A theorem about refusals. The contract of the call is the theorem; the call does nothing.

ghost use Rattle.call_bounds.specs.PlainRows.{RowsNamePlainEdges};

/// An edge that enters a loop of a reached function elsewhere than at its head is no call. Neither
/// is a back edge without a bound.
pub fn refusals_name_plain_edges()
    ensures { RowsNamePlainEdges }
{}
