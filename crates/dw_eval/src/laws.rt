//! Laws of evaluations, for the layers above. The functions do nothing: their contracts are proved.

ghost use Rattle.dw_eval.specs.Laws.{OneResult, OneLocation, ValuesInSpace, LocationsInSpace, WantedByValue, WantedByLocation};

/// In each context, under each limit of steps and for each stack at the start, an expression in range has exactly
/// one value or fault, and a location description exactly one list of pieces or fault. A value is below 2^N where all
/// that is on the stack at the start is, and so are the addresses and values of the places of a description. What a fault
/// asks for is missing: the bytes of `Unreadable`, the value of `NoRegister`'s register, the frame base, the CFA or the object.
pub fn evaluation_laws()
    ensures value { OneResult }
    ensures pieces { OneLocation }
    ensures values_in_space { ValuesInSpace }
    ensures places_in_space { LocationsInSpace }
    ensures wanted { WantedByValue }
    ensures wanted_by_places { WantedByLocation }
{}
