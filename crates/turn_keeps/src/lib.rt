// What a turn does to the machine that a sound memory spells, and that the memory stays sound. Theorems only.
#![tactic(auto)]
