// Nothing runs here. What lists of requests do to a ledger is the definitions of specs/, and theorems of this crate.
#![tactic(auto)]
