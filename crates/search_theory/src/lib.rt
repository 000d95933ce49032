// The theory of the search and of the session: trails and steps, calls and runs, and the law that holds over every run.
// There is no code here beyond the functions whose contracts carry the theorems.
#![tactic(auto)]

ghost use Rattle.search_theory.specs.Law.{SessionLaw, AnswerToLaw, SearchFirst, SearchBound, BuiltRun};
ghost use Rattle.search_theory.specs.Kept.{SessionKept};

// Over every bank with its duties and after any run of a new session, a finished answer is the right one,
// enough budget finishes, and any other session with the same picks in force answers the same.
pub fn session_law()
    ensures { SessionLaw }
{}

// The answer that a bank and picks have to a question says exactly what it should of the builds that fulfil the order.
pub fn answer_law()
    ensures { AnswerToLaw }
{}

// Every call keeps what the next one needs, and a new session has it.
pub fn session_kept()
    ensures { SessionKept }
{}

// A full trail with no dead rule reads the first build.
pub fn search_first()
    ensures { SearchFirst }
{}

// With f unpicked options a search that still needs a step has made fewer than 2^(f + 1) - 1.
pub fn search_bound()
    ensures { SearchBound }
{}

// There are a bank with its duties and a run that ends with a build: the law is not empty.
pub fn built_run()
    ensures { BuiltRun }
{}
