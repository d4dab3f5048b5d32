// Which ids of two sets are kept.
ghost use Rattle.std.specs.Prelude.{◌≡◌, Bool, false, refl};
ghost use Rattle.gtid_sets.specs.Combine.{either, both, without};

// What says of an id whether it is kept, by whether it is in the first set and whether it is in the second. One that is in neither never is.
pub(crate) trait Operation {
    ghost op: { Bool → Bool → Bool };

    fn keeps(first: bool, second: bool) -> bool
        ensures { result ≡ op first second };

    ghost none: { op false false ≡ false };
}

pub(crate) struct Either;

pub(crate) struct Both;

pub(crate) struct Without;

impl Operation for Either {
    ghost op = { either };

    ghost none = { refl };

    fn keeps(first: bool, second: bool) -> bool {
        first | second
    }
}

impl Operation for Both {
    ghost op = { both };

    ghost none = { refl };

    fn keeps(first: bool, second: bool) -> bool {
        first & second
    }
}

impl Operation for Without {
    ghost op = { without };

    ghost none = { refl };

    fn keeps(first: bool, second: bool) -> bool {
        first & !second
    }
}
