// What a completion answers: the verdict, and the steps of this call alone. At `Build` the place handed in holds the build.
use search::verdict::Counted;
pub use search::verdict::Verdict;

pub type Completion = Counted<Verdict>;
