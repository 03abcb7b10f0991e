// What a receive does to the machine, and that a sound memory stays sound. Theorems only.
#![tactic(auto)]
