// Small moves of letters and blocks, of which the calls are made: each keeps what holds of rows and nodes. Theorems only.
#![tactic(auto)]
