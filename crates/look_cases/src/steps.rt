// How much is told of a literal: what comes in its first steps, each of which gives a unit or a fault, or passes a stop
// that gives none.
use escapes::unicode::{Given, Units};
use look::go::go_by;
use pieces::piece::{Opening, Piece, Stop, next_piece};
use source::cursor::Cursor;
use source::text::Text;
use std::ops::ControlFlow;

const STEPS: usize = 1_000_000;

// The steps through a literal, from behind its opening byte on.
#[derive(Clone, Copy)]
pub struct Steps<'t> {
    cursor: Cursor<'t>,
    opening: Opening,
}

fn opening_of(byte: Option<u8>) -> Opening {
    match byte {
        Some(b'\'') => Opening::Single,
        Some(b'`') => Opening::Template,
        Some(b'}') => Opening::Resumption,
        _ => Opening::Double,
    }
}

// How many units the plain characters of a piece give.
fn plain_units(cursor: Cursor<'_>, piece: Piece) -> usize {
    let plain = cursor.text().as_str().get(cursor.place()..piece.to);
    plain
        .unwrap_or("")
        .chars()
        .take(STEPS)
        .fold(0usize, |units, c| units.saturating_add(c.len_utf16()))
}

// How many units a stop gives.
fn stop_units(stop: Stop) -> usize {
    match stop {
        Stop::Escape(Ok(Given { units, .. })) => match units {
            Units::Nothing => 0,
            Units::One(_) => 1,
            Units::Two(_, _) => 2,
        },
        Stop::Return(_) | Stop::Dollar(_) => 1,
        Stop::Escape(Err(_)) | Stop::End(_, _) => 0,
    }
}

impl<'t> Steps<'t> {
    pub fn of(text: Text<'t>, start: usize) -> Steps<'t> {
        let mut cursor = Cursor::new(text).moved(start);
        let opening = opening_of(cursor.peek());
        let _ = cursor.next();
        Steps { cursor, opening }
    }

    // How many units come in them at most.
    pub fn units(self) -> usize {
        self.told(|cursor, piece| (plain_units(cursor, piece), stop_units(piece.stop)))
    }

    // How many faults come in them at most.
    pub fn faults(self) -> usize {
        let in_template = self.opening.in_template();
        self.told(|_, piece| match go_by(piece.stop, in_template) {
            ControlFlow::Continue(passed) => (0, usize::from(passed.faulty)),
            ControlFlow::Break(_) => (0, 0),
        })
    }

    // One for each step but for those that give none, where a piece gives so many in its plain characters and so many
    // at its stop.
    fn told<F: FnMut(Cursor<'_>, Piece) -> (usize, usize)>(self, mut given: F) -> usize
        requires { F.IsAlwaysCallable given }
    {
        // a step takes a byte at least, but for a few at the end
        if self.cursor.bytes().len() < STEPS / 2 {
            return STEPS;
        }
        let mut cursor = self.cursor;
        let mut steps = 0usize;
        let mut told = STEPS;
        for _ in 0..STEPS {
            let piece = next_piece(cursor, self.opening);
            let (plain, stop) = given(cursor, piece);
            steps = steps.saturating_add(plain);
            if steps >= STEPS {
                break;
            }
            if stop == 0 {
                told = told.saturating_sub(1);
            }
            steps = steps.saturating_add(stop.max(1));
            let ControlFlow::Continue(passed) = go_by(piece.stop, self.opening.in_template()) else {
                break;
            };
            cursor.move_to(passed.next);
        }
        told
    }
}
