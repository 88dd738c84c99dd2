// Nothing runs here. Which ledgers a list of requests can end in, and the list that ends in a given one, are the definitions of specs/, and theorems of this crate.
#![tactic(auto)]
