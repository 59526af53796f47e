//! What puts of the manifest leave, and that what was got stays.

ghost use Rattle.fleet_model.specs.Store.{Store};
ghost use Rattle.step_model.specs.Later.{IsLater};
ghost use Rattle.step_model.specs.Views.{StoreView};
ghost use Rattle.fleet_store.specs.Laws.{GotIsStored, GotStays, RefusedPutsAreAlike};

/// A put of the manifest leaves the same whatever its value is, unless its version is stored. So a
/// step need not know its value but for the store that it got.
pub fn refused_puts_are_alike()
    ensures { RefusedPutsAreAlike }
{}

/// What a party got of a store stays, whatever is called later: an object as long as its version is
/// stored, and the description of a table in any case.
pub fn got_stays()
    ensures { (got : Store) (met : Store) → IsLater got met → GotStays got met }
{}

/// What a get answered is what the store then has.
pub fn got_is_stored()
    ensures { (old : StoreView) → (new : StoreView) → GotIsStored old new }
{}
