// The worked examples of docs/RULES.md as one list, proved together from the meanings of the banks.
#![tactic(auto)]

ghost use Rattle.std.specs.Prelude.{◌≡◌};
ghost use Rattle.worked_examples.specs.Examples.{WorkedExamples};

// How many worked examples there are. Its contract is the list: each of them holds.
#[tactic(auto, unfolding(builds::specs::Builds::some_build, builds::specs::Builds::first_build, builds::specs::Answers::occurs, builds::specs::Answers::mark_of, builds::specs::Answers::answer_of, bank::specs::Banks::meets_first, layer_theory::specs::Layers::pair_meets, diagram_theory::specs::Counts::count_builds, search_theory::specs::Law::answer_to))]
pub fn worked_examples() -> usize
    ensures number { result ≡ 13 }
    ensures list { WorkedExamples }
{
    13
}
