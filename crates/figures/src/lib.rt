// Document 01's own figures, and queues worked through step by step: theorems only.
#![tactic(auto)]
