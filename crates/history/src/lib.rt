// Demand 3: what holds of the letters accepted, received and listed, and of the blocks, after any calls. Theorems only.
#![tactic(auto)]
