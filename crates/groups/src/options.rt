// The tests that the options of a group have to pass.
ghost use Rattle.std.specs.Prelude.{◌≡◌};
ghost use Rattle.groups.specs.Group.{all_below, distinct};

// Whether each of the options is below `width`.
// Clauses have a `within` of their own: their numbers are halved first, and a shared one would be no plainer, since it takes a closure that is all of it.
pub(crate) fn within(options: &[u32], width: usize) -> bool
    ensures { result ≡ all_below width options.now }
{
    options.iter().all(|option| (*option as usize) < width)
}

// Whether no option stands twice.
pub(crate) fn all_different(options: &[u32]) -> bool
    ensures { result ≡ distinct options.now }
{
    // A loop and no `all`: in a closure the slice of the options that follow did not prove.
    for (i, option) in options.iter().enumerate() {
        if options[i + 1..].contains(option) {
            return false;
        }
    }
    true
}
