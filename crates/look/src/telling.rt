// How the faults of a literal are read.
ghost use Rattle.std.specs.Prelude.{◌≡◌, ℕ, ◌+◌, ◌<◌, ◌≤◌, true, List, [], ◌∷◌, ◌++◌, None, MatchOption, is_some, option_to_list, OnSome};
ghost use Rattle.std.specs.Iterator.{at_most};
ghost use Rattle.grammar.specs.Outcome.{end_faults};
ghost use Rattle.tokens.specs.Grammar.{recorded};
ghost use Rattle.pieces.specs.Pieces.{ending_of};
ghost use Rattle.look.specs.Told.{Same, Told, ToldAll, Tells, due, left};
ghost use Rattle.look.specs.Units.{Opened};

use crate::faulty::{Due, FaultReader};
use crate::go::go_by;
use crate::literal::Literal;
use faults::{Fault, FaultKind};
use pieces::piece::{Ending, Opening, next_piece};
use source::cursor::Cursor;
use std::ops::ControlFlow;

// How many faults an ending records.
pub fn end_faults(ending: Ending) -> u8
    ensures due { (p q : ℕ) → recorded (end_faults (ending_of ending) p q) ≡ due p q result }
    ensures few { result ≤ 2 }
{
    match ending {
        Ending::Closed | Ending::Substitution => 0,
        Ending::LineBreak | Ending::TextEnd => 1,
        Ending::LastBackslash => 2,
    }
}

impl<'t> Literal<'t> {
    // The faults, one after the other.
    pub fn faults(self) -> FaultReader<'t>
        ensures cursor { (result.cursor ≡ self.entry.inside) × (result.opening ≡ self.entry.opening) × (result.start ≡ self.entry.start) }
        ensures told { Told result [] }
    {
        FaultReader::new(self.inside, self.opening, self.start)
    }
}

impl<'t> FaultReader<'t> {
    // The faults of the literal that opens at a start, before a cursor's place.
    pub fn new(cursor: Cursor<'t>, opening: Opening, start: usize) -> FaultReader<'t>
        ensures cursor { (result.cursor ≡ cursor.entry) × (result.opening ≡ opening) × (result.start ≡ start) }
        ensures told { Opened cursor.entry.bytes.now start opening → cursor.entry.place.at ≡ start + 1 → Told result [] }
    {
        FaultReader {
            cursor,
            opening,
            start,
            due: None,
        }
    }

    // Passes a piece in the literal: its fault, if its stop is one.
    fn pass_piece(&mut self) -> Option<Fault>
        requires { self.old.due ≡ None }
        ensures same { Same self.new self.old }
        ensures told { (fs : List Fault) → Told self.old fs → Told self.new (fs ++ option_to_list result) }
        ensures nearer { left self.new < left self.old }
    {
        let piece = next_piece(self.cursor, self.opening);
        match go_by(piece.stop, self.opening.in_template()) {
            ControlFlow::Break((ending, end)) => {
                self.due = Some(Due {
                    end,
                    count: end_faults(ending),
                });
                None
            }
            ControlFlow::Continue(passed) => {
                self.cursor.move_to(passed.next);
                passed.faulty.then_some(Fault {
                    kind: FaultKind::InvalidEscape,
                    from: piece.to,
                    to: passed.next,
                })
            }
        }
    }

    // Takes one of the faults that are due behind the end.
    fn take_due(&mut self) -> Option<Fault>
        requires { is_some self.old.due ≡ true }
        ensures same { Same self.new self.old }
        ensures told { (fs : List Fault) → Told self.old fs → MatchOption result (ToldAll self.old fs) (λ f. Told self.new (fs ++ f ∷ [])) }
        ensures nearer { OnSome result (left self.new < left self.old) }
    {
        let due = self.due?;
        let count = due.count.checked_sub(1)?;
        self.due = Some(Due {
            end: due.end,
            count,
        });
        Some(Fault {
            kind: FaultKind::Unterminated,
            from: self.start,
            to: due.end,
        })
    }
}

impl Iterator for FaultReader<'_> {
    type Item = Fault;

    ghost next_gives = { Tells };

    ghost remaining = { λ r. at_most (left r) };

    fn next(&mut self) -> Option<Fault> {
        'pieces: while self.due.is_none() {
            if let Some(fault) = self.pass_piece() {
                return Some(fault);
            }
        }
        self.take_due()
    }
}
