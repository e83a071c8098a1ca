// From the contracts of the public functions to the switch of the theorems: theorems alone, see proofs/Contracts.antt.
#![tactic(auto)]
