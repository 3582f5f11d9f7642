// What several crates say about lists and tests: definitions in specs/, laws in proofs/. There is no
// code here.
#![tactic(auto)]
