// One frame does not feel the other: what is proved of a row of channels in two runs from reset. Paper 02, #105 as #107 restates it.
#![tactic(auto)]

ghost use Rattle.isolation.specs.OneMove.{OneMove};

// A move that one request sets going in two runs of which its row felt the same before: as many counts after each was first served both
// show the same pins, whatever else the runs do and however late their services come.
pub fn frames_apart()
    ensures { OneMove }
{}
