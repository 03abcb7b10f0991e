// No code: small memories, sound and broken in each of the rules, worked through by the checker.
#![tactic(auto)]
