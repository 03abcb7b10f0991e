// The machine that a sound memory spells: six nodes with their free lists and letters. Theorems only.
#![tactic(auto)]
