// The requests of a team on a node, by the names of their kinds. Fields that a kind does not read are 0.
ghost use Rattle.std.specs.Prelude.{◌≡◌, pos};
ghost use Rattle.rules.specs.Asks.{request, plain, OWN, ADVANCE, MARK, EXPAND, LOOK, REPORT, PUSH};

use rules::{Kind, Request};

pub fn own(team: i32, node: i32) -> Request
    ensures { result ≡ plain (pos OWN) team node (pos 0) (pos 0) }
{
    Request::plain(Kind::Own, team, node, 0, 0)
}

pub fn advance(team: i32, node: i32, position: i32, amount: i32) -> Request
    ensures { result ≡ plain (pos ADVANCE) team node position amount }
{
    Request::plain(Kind::Advance, team, node, position, amount)
}

pub fn mark(team: i32, node: i32, position: i32) -> Request
    ensures { result ≡ plain (pos MARK) team node position (pos 0) }
{
    Request::plain(Kind::Mark, team, node, position, 0)
}

pub fn expand(team: i32, node: i32) -> Request
    ensures { result ≡ plain (pos EXPAND) team node (pos 0) (pos 0) }
{
    Request::plain(Kind::Expand, team, node, 0, 0)
}

pub fn look(team: i32, node: i32) -> Request
    ensures { result ≡ plain (pos LOOK) team node (pos 0) (pos 0) }
{
    Request::plain(Kind::Look, team, node, 0, 0)
}

pub fn report(team: i32, node: i32, count: i32, first: i32, last: i32) -> Request
    ensures { result ≡ request (pos REPORT) team node (pos 0) (pos 0) count first last }
{
    Request::new(
        i32::from(Kind::Report),
        team,
        node,
        0,
        0,
        count,
        first,
        last,
    )
}

pub fn push(team: i32, node: i32) -> Request
    ensures { result ≡ plain (pos PUSH) team node (pos 0) (pos 0) }
{
    Request::plain(Kind::Push, team, node, 0, 0)
}
