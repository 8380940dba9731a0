// The units of a literal, one after the other.
ghost use Rattle.std.specs.Prelude.{◌≡◌, ℕ, ◌*◌, ◌≤◌, length};
ghost use Rattle.escapes.specs.Escapes.{listed};
ghost use Rattle.pieces.specs.Pieces.{body_of, PieceRead};

use escapes::unicode::Units;
use pieces::piece::{Opening, Piece};
use source::cursor::Cursor;

// Where the reading of units stands: in the plain characters of a piece, with the units of what was read last that are still to be given.
#[derive(Clone, Copy)]
pub struct UnitReader<'t> {
    pub(crate) cursor: Cursor<'t>,
    pub(crate) opening: Opening,
    pub(crate) piece: Piece,
    pub(crate) pending: Units,
    ghost read: { ∥ ((from : ℕ) × PieceRead (body_of opening) cursor.bytes.now from piece.to piece.stop) ∥₁ },
    ghost order: { cursor.place.at ≤ piece.to },
    ghost few: { length (listed pending) ≤ 2 * cursor.place.at },
}
