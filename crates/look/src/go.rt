// How a literal goes on at a stop.
ghost use Rattle.std.specs.Prelude.{◌≡◌, ℕ, true, List};
ghost use Rattle.grammar.specs.Literal.{Body};
ghost use Rattle.escapes.specs.Escapes.{is_template, units_told, faults_told, reached};
ghost use Rattle.pieces.specs.Pieces.{GoesOn, StopRead};
ghost use Rattle.look.specs.Goes.{GoRead, PassedRead};

use escapes::unicode::{Given, Invalid};
use pieces::piece::{Ending, Stop};
use std::ops::ControlFlow;

// A stop that the literal passes: whether it is a fault, whether a value is still cooked, whether it marks the literal, and the place behind it.
#[derive(Clone, Copy, PartialEq, Eq, Debug)]
pub struct Passed {
    pub faulty: bool,
    pub cooked: bool,
    pub marked: bool,
    pub next: usize,
}

// An escape.
fn pass_escape(escape: Result<Given, Invalid>, in_template: bool) -> Passed
    ensures { (b : Body) (bs : List ℕ) (p : ℕ) → is_template b ≡ in_template → GoesOn b bs p (units_told (is_template b) escape) (faults_told (is_template b) p escape) true (reached escape) → PassedRead b bs p result }
{
    match escape {
        Ok(given) => Passed {
            faulty: false,
            cooked: true,
            marked: true,
            next: given.next,
        },
        Err(invalid) => Passed {
            faulty: !in_template,
            cooked: !in_template,
            marked: true,
            next: invalid.next,
        },
    }
}

// Any stop: what is passed, or the literal's ending and end.
pub fn go_by(stop: Stop, in_template: bool) -> ControlFlow<(Ending, usize), Passed>
    ensures { (b : Body) (bs : List ℕ) (p : ℕ) → is_template b ≡ in_template → StopRead b bs p stop → GoRead b bs p result }
{
    match stop {
        Stop::Escape(escape) => ControlFlow::Continue(pass_escape(escape, in_template)),
        Stop::Return(next) => ControlFlow::Continue(Passed {
            faulty: false,
            cooked: true,
            marked: true,
            next,
        }),
        Stop::Dollar(next) => ControlFlow::Continue(Passed {
            faulty: false,
            cooked: true,
            marked: false,
            next,
        }),
        Stop::End(ending, end) => ControlFlow::Break((ending, end)),
    }
}
