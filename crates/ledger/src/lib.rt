// The ledger of a session's life and its law: the definitions stand in specs/, and the contract of each function here is a theorem on them.
#![tactic(auto)]

ghost use Rattle.ledger.specs.Laws.{RunsKeep, Begins, GoesOn, CallsDecide};
ghost use Rattle.ledger.specs.Worked.{ALongLife, WithoutSlots, WithoutPlaces, WithoutCapacity, BrokenOff};

// Every run of the ledger keeps the law: what was just made keeps it, and so does every step more.
pub fn runs_keep_the_law()
    ensures runs { RunsKeep }
    ensures begins { Begins }
    ensures goes_on { GoesOn }
{}

// Two lives that begin alike and have the same calls have the same replies and leave the same.
pub fn calls_decide()
    ensures { CallsDecide }
{}

// The law speaks of something: lives in which literals are stored and told, and in which they are turned down.
pub fn worked_lives()
    ensures long { ALongLife }
    ensures slots { WithoutSlots }
    ensures places { WithoutPlaces }
    ensures capacity { WithoutCapacity }
    ensures broken { BrokenOff }
{}
