// How long the lines of the listing are. The lines are the definitions of specs/, and what document 01 says of every line is a theorem of this crate.
#![tactic(auto)]

// The bytes of the longest line that `sheets` prints, its line end among them.
pub const LONGEST: usize = 42;
