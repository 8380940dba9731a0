// The literals of ECMA-262 as a definition, and the reading of a scan: the definitions stand in specs/, and the contract of each function here is a theorem on them.
#![tactic(auto)]

ghost use Rattle.grammar.specs.Bench.{BenchStands, BenchDerived};
ghost use Rattle.grammar.specs.Laws.{DerivationsAreOne, ReadingsAreOne, AcceptsExactly, DerivationsAreRead, CharactersAreSteps, NoneExactly, TemplatesFaultAtEnds, MarkIsSeen};
ghost use Rattle.grammar.specs.Places.{ReadingsStand, DerivationsStand, NothingOffBoundaries};
ghost use Rattle.grammar.specs.Utf8.{CharactersStand, SpeltStand, NothingPast, NothingInside};
ghost use Rattle.grammar.specs.Worked.{SevenInATemplate, SevenInAString, NothingFromInside};

// Any two derivations from one start are the same: kind, end, tree and units.
pub fn derivations_are_one()
    ensures { DerivationsAreOne }
{}

// Any two readings from one start are the same.
pub fn readings_are_one()
    ensures { ReadingsAreOne }
{}

// A reading is without fault, of a kind, with an end and with units or none, exactly when the standard derives that kind from its start to that end with those units.
// Every derivation is read so, and its characters are the reading's steps.
pub fn accepts_exactly()
    ensures exactly { AcceptsExactly }
    ensures read { DerivationsAreRead }
    ensures steps { CharactersAreSteps }
{}

// None is cooked exactly when a NotEscapeSequence stands in the derivation, and no character of a template is a fault.
pub fn none_exactly()
    ensures none { NoneExactly }
    ensures unfaulted { TemplatesFaultAtEnds }
{}

// A terminated literal is marked exactly when a backslash, or in a template a raw CR, is among the characters that it took.
pub fn mark_is_seen()
    ensures { MarkIsSeen }
{}

// The literals of the bench are read as listed, and derived by the standard exactly where they are without fault.
pub fn bench_stands()
    ensures stands { BenchStands }
    ensures derived { BenchDerived }
{}

// The characters of UTF-8 bytes: what is known where one stands, where one stands, and where none does.
pub fn utf8_stands()
    ensures characters { CharactersStand }
    ensures spelt { SpeltStand }
    ensures past { NothingPast }
    ensures inside { NothingInside }
{}

// In UTF-8 bytes a reading and a derivation begin and end at boundaries, and the end is further on.
pub fn readings_stand()
    ensures readings { ReadingsStand }
    ensures derivations { DerivationsStand }
{}

// Nothing is derived or read from inside a character.
pub fn nothing_from_inside()
    ensures worked { NothingFromInside }
    ensures always { NothingOffBoundaries }
{}

// Of seven digits in braces, NotCodePoint takes all in a template; in a string recovery takes six, and the last is ordinary text. The ends agree.
pub fn seven_digits()
    ensures template { SevenInATemplate }
    ensures string { SevenInAString }
{}
