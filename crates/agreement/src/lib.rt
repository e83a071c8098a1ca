// The definitions of crates/wsgs against the second program: theorems alone, see proofs/Seeds.antt (event files), proofs/Ledgers.antt (lists of calls)
// and proofs/Looks.antt (searches of a turn).
#![tactic(auto)]
