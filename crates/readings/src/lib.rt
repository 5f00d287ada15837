// The readings of document 01 that are proved: specs/ lists them, and proofs/ proves each.
#![tactic(auto)]
