// What is known of diagrams and sums over builds: definitions in specs/, their facts in proofs/. There is no code here;
// the crates `sweeps` and `diagram_bank` build on it.
#![tactic(auto)]
