// One run of calls, computed by the checker: a turn that stops at stage 3, one that stops at stage 2, and both resumed. Theorems only.
#![tactic(auto)]
