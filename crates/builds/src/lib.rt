// Builds and values tables: the definitions on which every contract of the library rests, and their laws.
// The two functions here decide the two relations of the subject; their contracts also carry the laws.
#![tactic(auto)]

ghost use Rattle.std.specs.Prelude.{◌≡◌};
ghost use Rattle.builds.specs.Builds.{before as before_of};
ghost use Rattle.builds.specs.Values.{allows as allows_of, fits as fits_of};
ghost use Rattle.builds.specs.Laws.{SomeBuildLaw, FirstBuildLaw, BeforeLaw, AnswerLaw};

// Whether a value of a table leaves room for a value of a build. A caller may hand in any number as a value.
fn allows(value: u8, bit: bool) -> bool
    ensures { result ≡ allows_of value bit }
{
    match value {
        0 => !bit,
        1 => bit,
        _ => true,
    }
}

// Whether a build agrees with every 0 and 1 of a values table. Only the places that both have are read.
#[tactic(auto, using(crate::proofs::Answering::some_build_law))]
pub fn fits(values: &[u8], build: &[bool]) -> bool
    ensures value { result ≡ fits_of values.now build.now }
    ensures answers { AnswerLaw }
    ensures somes { SomeBuildLaw }
{
    values
        .iter()
        .zip(build)
        .all(|(value, bit)| allows(*value, *bit))
}

// Whether the left build comes first: it has 0 at the lowest option where the two differ.
#[tactic(auto, using(crate::proofs::Orders::before_law, crate::proofs::Answering::first_build_law))]
pub fn before(left: &[bool], right: &[bool]) -> bool
    ensures value { result ≡ before_of left.now right.now }
    ensures order { BeforeLaw }
    ensures firsts { FirstBuildLaw }
{
    left.iter()
        .zip(right)
        .find(|(ours, theirs)| ours != theirs)
        .is_some_and(|(_, theirs)| *theirs)
}
