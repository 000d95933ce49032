// The table of picks that a pick text fills, and the number of options that may be picked.
// Each reader of picks says in its contract that `width` stays: it is of two values, before and after, and no type holds that.
ghost use Rattle.std.specs.Prelude.{◌≡◌, map};
ghost use Rattle.search_theory.specs.Runs.{no_picks};
ghost use Rattle.search_theory.specs.Values.{value_number};

#[derive(Clone, Copy, Drop)]
pub struct Picks {
    // how many options may be picked, and no length of `values`, of which every place is in use
    pub width: usize,
    // a value at a picked option, none elsewhere
    pub values: [Option<bool>; 128],
}

impl Picks {
    // No picks over `width` options.
    pub fn none(width: usize) -> Picks
        ensures width { result.width ≡ width }
        ensures none { map value_number result.values ≡ no_picks }
    {
        Picks {
            width,
            values: [None; 128],
        }
    }
}
