// One search for every stop set.
ghost use Rattle.std.specs.Prelude.{◌+◌, ◌-◌, ◌<◌, ◌≤◌, length, IfSome, IsUtf8};
ghost use Rattle.std.specs.Str.{IsCharBoundary};
ghost use Rattle.stops.specs.First.{Free, FirstStop};

use crate::sets::StopSet;

// how many bytes are taken at a time while so many remain
pub const BATCH: usize = 32;

// The place and the byte of the first stop at or behind a place, or none. A place past the end answers none.
pub fn search<S: StopSet>(set: &S, bytes: &[u8], from: usize) -> Option<(usize, u8)>
    ensures first { FirstStop (S.StopSet.stops set.now) bytes.now from result }
    ensures boundary { IsUtf8 bytes.now → IsCharBoundary bytes.now from → IfSome result (λ p. IsCharBoundary bytes.now p.0) }
{
    first_stop(set, bytes, from)
}

// The first stop, batch by batch. Two loops and a label, so that the inner one always goes over as
// many bytes and is unrolled.
fn first_stop<S: StopSet>(set: &S, bytes: &[u8], from: usize) -> Option<(usize, u8)>
    ensures { FirstStop (S.StopSet.stops set.now) bytes.now from result }
{
    if from > bytes.len() {
        return None;
    }
    let mut at = from;
    'batches: loop {
        if bytes.len() - at < BATCH {
            break 'batches first_in_rest(set, bytes, at);
        }
        for (i, byte) in bytes[at..at + BATCH].iter().enumerate() {
            if set.has(*byte) {
                break 'batches Some((at + i, *byte));
            }
        }
        at += BATCH;
    }
}

// The first stop at or behind a place, byte by byte.
fn first_in_rest<S: StopSet>(set: &S, bytes: &[u8], at: usize) -> Option<(usize, u8)>
    requires { at ≤ length bytes.now }
    ensures { FirstStop (S.StopSet.stops set.now) bytes.now at result }
{
    for (i, byte) in bytes[at..].iter().enumerate() {
        if set.has(*byte) {
            return Some((at + i, *byte));
        }
    }
    None
}
