// The stages and steps of a turn as definitions, and that each leads from a sound memory to a sound memory, the position amended. Theorems only.
#![tactic(auto)]
