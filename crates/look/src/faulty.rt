// The faults of a literal, one after the other.
use pieces::piece::Opening;
use source::cursor::Cursor;

// Faults that are still to be told behind a literal's end: each from its start to that end.
#[derive(Clone, Copy, PartialEq, Eq, Debug)]
pub struct Due {
    pub end: usize,
    pub count: u8,
}

// Where the reading of faults stands: in the literal, or behind its end with what is due there.
#[derive(Clone, Copy)]
pub struct FaultReader<'t> {
    pub(crate) cursor: Cursor<'t>,
    pub(crate) opening: Opening,
    pub(crate) start: usize,
    pub(crate) due: Option<Due>,
}
