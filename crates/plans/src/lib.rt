// The plan of an input: what a grid, a band and a model give to the schedule, and that it is lawful.
// Definitions stand in specs/, laws in proofs/. There is no code here.
#![tactic(auto)]
