// Two leading bytes by a slice pattern, and the remainder handed on.
ghost use Rattle.std.specs.Prelude.{◌≡◌, ◌+◌, ◌∷◌, drop, MatchOption};
ghost use Rattle.source.specs.Fronts.{Begins};

// What follows the bytes `A` and `B` at the front.
pub fn after<const A: u8, const B: u8>(bytes: &[u8]) -> Option<&[u8]>
    ensures { MatchOption result (Begins A B bytes.now → ⊥) (λ rest. bytes.now ≡ A ∷ (B ∷ rest.now)) }
{
    match bytes {
        [a, b, rest @ ..] if *a == A && *b == B => Some(rest),
        _ => None,
    }
}

// The place behind the bytes `A` and `B` that stand at a place, or none. A place past the end answers none.
pub fn behind<const A: u8, const B: u8>(bytes: &[u8], at: usize) -> Option<usize>
    ensures { MatchOption result (Begins A B (drop at bytes.now) → ⊥) (λ behind. Begins A B (drop at bytes.now) × (behind ≡ at + 2)) }
{
    let rest = after::<A, B>(bytes.get(at..)?)?;
    Some(bytes.len() - rest.len())
}
