// The standard's side against a JavaScript engine.
#![tactic(auto)]

ghost use Rattle.grammar_cases.specs.Cases.{EngineAgrees};

// Of each listed literal, the standard derives what the engine answered: the whole literal with the same units or none, or nothing where it was refused.
pub fn engine_agrees()
    ensures { EngineAgrees }
{}
