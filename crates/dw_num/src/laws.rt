//! Laws of numbers, for the layers above. The function does nothing: its contract is proved.

ghost use Rattle.dw_num.specs.Laws.{ReadsStay, OneUleb, OneSleb, ShortestUleb, ShortestSleb};

/// A read of a cursor leaves the end where it is, and a refusal lies from the cursor's place to that end, so from the
/// base to the base and the slice's length. A number has one shortest spelling, and `shortest_uleb` and `shortest_sleb` compute it.
pub fn number_laws()
    ensures within { ReadsStay }
    ensures unsigned { OneUleb }
    ensures signed { OneSleb }
    ensures shortest { ShortestUleb }
    ensures shortest_signed { ShortestSleb }
{}
