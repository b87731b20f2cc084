// A board with a store: what is proved of its saves, its loads and every list of its calls.
#![tactic(auto)]

ghost use Rattle.board.specs.Saves.{Saves};
ghost use Rattle.board.specs.Loads.{Addresses, Loads};
ghost use Rattle.board.specs.RoundTrip.{RoundTrip};
ghost use Rattle.board.specs.History.{BoardHistory};

// A save leaves every other block and never the newest version without one; a load brings back what was saved and nothing else;
// and term 3 holds with both in the list of calls.
pub fn histories()
    ensures addresses { Addresses }
    ensures saves { Saves }
    ensures loads { Loads }
    ensures round_trip { RoundTrip }
    ensures history { BoardHistory }
{}
