// Runs the worked examples and says in words what it found: small tables of each kind, marked under values tables; orders
// completed over them; and the edges (the most variants that are counted, the shortest conflict, the greatest budget, the
// most options).
#![tactic(auto)]

mod clause_case;
mod diagram_case;
mod edge_case;
mod group_case;
mod session_case;
mod show;

use clause_case::show_clauses;
use diagram_case::show_diagrams;
use edge_case::show_edges;
use group_case::show_groups;
use session_case::show_sessions;

fn main(rt: HostRuntime) -> anyhow::Result<()> {
    show_clauses(&rt)?;
    show_diagrams(&rt)?;
    show_groups(&rt)?;
    show_sessions(&rt)?;
    show_edges(&rt)
}
