// What the two tables hold for a literal.
ghost use Rattle.std.specs.Prelude.{◌≡◌, ℕ, Bool, true, false, is_some, Option};
ghost use Rattle.session.specs.Scans.{AsNumber, AsOption};

// What an entry holds of a literal's value: a string's holds its number, a template's its number or none.
pub trait Entry: Copy {
    // whether each has a value
    ghost always: { Bool };

    ghost holds: { Option ℕ → Self → Type 0 };

    // The entry of a value's number, or of none.
    fn of(number: Option<usize>) -> Self
        requires { always ≡ true → is_some number ≡ true }
        ensures { holds number result };
}

impl Entry for usize {
    ghost always = { true };

    ghost holds = { AsNumber };

    fn of(number: Option<usize>) -> usize {
        number.unwrap()
    }
}

impl Entry for Option<usize> {
    ghost always = { false };

    ghost holds = { AsOption };

    fn of(number: Option<usize>) -> Option<usize> {
        number
    }
}
