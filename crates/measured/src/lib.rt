// Facts about the rules of the grid, of the dense field and of the root, proved together: see
// proofs/Measured.antt. There is no code here.
#![tactic(auto)]
