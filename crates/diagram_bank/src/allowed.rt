// What a value lets its option be: 1 rules out 0, 0 rules out 1, and no value yet rules out nothing.
ghost use Rattle.std.specs.Prelude.{◌≡◌, true, false};
ghost use Rattle.builds.specs.Values.{allows};

// Whether the option may be 0.
#[tactic(auto, using(diagram_theory::proofs::Freeing::allows_false))]
pub(crate) fn may_be_0(value: u8) -> bool
    ensures { result ≡ allows value false }
{
    value != 1
}

// Whether the option may be 1.
#[tactic(auto, using(diagram_theory::proofs::Freeing::allows_true))]
pub(crate) fn may_be_1(value: u8) -> bool
    ensures { result ≡ allows value true }
{
    value != 0
}
