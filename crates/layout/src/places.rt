// Where the numbers and the results of a node stand in its bytes.
ghost use Rattle.std.specs.Prelude.{◌≡◌, ◌+◌, ◌≤◌};
ghost use Rattle.layout.specs.Sizes.{node_size};
ghost use Rattle.layout.specs.Places.{place_of, result_place};

// A number of a node, other than those of its results.
#[derive(Clone, Copy, Debug, PartialEq, Eq)]
pub enum Field {
    Start = 0,
    Until = 4,
    Progress = 8,
    Owner = 12,
    Left = 16,
    Stage = 44,
}

impl Field {
    // The first of its four bytes.
    pub(crate) fn place(self) -> usize
        ensures place { result ≡ place_of self }
        ensures inside { result + 4 ≤ node_size }
    {
        self as usize
    }
}

// A result of a node: its own, and the one that is joined with its children's.
#[derive(Clone, Copy, Debug, PartialEq, Eq)]
pub enum Found {
    Own = 20,
    Joined = 32,
}

impl Found {
    // The first of its twelve bytes.
    pub(crate) fn place(self) -> usize
        ensures place { result ≡ result_place self }
        ensures inside { result + 12 ≤ node_size }
    {
        self as usize
    }
}
