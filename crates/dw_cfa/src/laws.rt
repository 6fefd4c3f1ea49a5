//! Laws of rows, for the layers above.

ghost use Rattle.dw_cfa.specs.{FaultPlaces.{CieFaultsWithin, FdeFaultsWithin, RunFaultsWithin}, Match.{MatchExists, RestoresMatched}};
ghost use Rattle.dw_cfa.specs.RowLaws.{OneRun, RefusedWhereFault, RowsWhereKept, NoneFalls, LastHolds, OneHolds, OneListing, OneCount};
ghost use Rattle.dw_cfa.specs.RowLaws.{FirstRowIsBegin, OneInitial, LeavesWhereKept, OneBehind, GivesWhereKept, RulesWhereGiven, BehindWhereFault};

/// What holds of the rows that two programs give, of the row that a CIE's program leaves, and of the rows of an FDE's program behind
/// an initial row; and of their refusals. It does nothing: its contract is proved.
pub fn row_laws()
    ensures run { OneRun }
    ensures refused { RefusedWhereFault }
    ensures kept { RowsWhereKept }
    ensures forwards { NoneFalls }
    ensures holds { LastHolds }
    ensures one { OneHolds }
    ensures listing { OneListing }
    ensures count { OneCount }
    ensures first { FirstRowIsBegin }
    ensures within { RunFaultsWithin }
    ensures matched { RestoresMatched }
    ensures found { MatchExists }
    ensures initial { OneInitial }
    ensures initial_kept { LeavesWhereKept }
    ensures initial_within { CieFaultsWithin }
    ensures behind { OneBehind }
    ensures behind_kept { GivesWhereKept }
    ensures behind_rules { RulesWhereGiven }
    ensures behind_refused { BehindWhereFault }
    ensures behind_within { FdeFaultsWithin }
{}
