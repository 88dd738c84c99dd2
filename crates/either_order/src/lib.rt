// Nothing runs here. When two requests may be made in either order is the definitions of specs/, and theorems of this crate.
#![tactic(auto)]
