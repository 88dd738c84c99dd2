// Nothing runs here. The listing of a text is the definitions of specs/; what is demanded of it is theorems of this crate.
#![tactic(auto)]
