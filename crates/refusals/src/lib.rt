// The refusals: each request's tests, in the order of document 01's table.
#![tactic(auto)]

ghost use Rattle.std.specs.Prelude.{◌≡◌, IfOk, pos};
ghost use Rattle.numbers.specs.Fields.{is_nat};
ghost use Rattle.rules.specs.Kinds.{number_of};
ghost use Rattle.rules.specs.Refusals.{no_room, own_code, advance_code, mark_code, expand_code, report_code, push_code, kind_code, refusal};
ghost use Rattle.rules.specs.Refused.{code_in};

use rules::{Kind, Node, Refusal, Request, View};

fn by_owner(x: Node, r: Request) -> bool
    ensures { result ≡ is_nat r.team x.owner }
{
    numbers::is_number(r.team, x.owner)
}

// The sums are taken in 64 bits, where no number of a view can make them wrap.
fn no_room(v: View) -> bool
    ensures { result ≡ no_room v }
{
    u64::from(v.room) < u64::from(v.used) + 2 * u64::from(v.stolen) + 2
}

#[tactic(auto, unfolding(rules::specs::Refusals::own_code))]
fn own_tests(x: Node) -> Result<(), Refusal>
    ensures { code_in result ≡ own_code x }
{
    if !nodes::is_unowned(x) {
        return Err(Refusal::HasOwner);
    }
    if nodes::is_completed(x) {
        return Err(Refusal::Completed);
    }
    Ok(())
}

#[tactic(auto, unfolding(rules::specs::Refusals::advance_code))]
fn advance_tests(x: Node, r: Request) -> Result<(), Refusal>
    ensures { code_in result ≡ advance_code x r }
{
    if !numbers::in_range(r.amount, 1, Request::AMOUNT) {
        return Err(Refusal::Amount);
    }
    if !by_owner(x, r) {
        return Err(Refusal::NotOwner);
    }
    if nodes::is_marked(x) {
        return Err(Refusal::Stolen);
    }
    if nodes::is_completed(x) {
        return Err(Refusal::Completed);
    }
    if r.position != x.progress {
        return Err(Refusal::OldPosition);
    }
    Ok(())
}

#[tactic(auto, unfolding(rules::specs::Refusals::mark_code))]
fn mark_tests(v: View, r: Request) -> Result<(), Refusal>
    ensures { code_in result ≡ mark_code v r }
{
    let x = v.node;
    if nodes::is_unowned(x) {
        return Err(Refusal::NoOwner);
    }
    if by_owner(x, r) {
        return Err(Refusal::IsOwner);
    }
    if nodes::is_marked(x) {
        return Err(Refusal::Stolen);
    }
    if nodes::is_completed(x) {
        return Err(Refusal::Completed);
    }
    if r.position != x.progress {
        return Err(Refusal::OldPosition);
    }
    if no_room(v) {
        return Err(Refusal::NoRoom);
    }
    Ok(())
}

#[tactic(auto, unfolding(rules::specs::Refusals::expand_code))]
fn expand_tests(x: Node) -> Result<(), Refusal>
    ensures { code_in result ≡ expand_code x }
{
    if !nodes::is_marked(x) {
        return Err(Refusal::NotStolen);
    }
    if !nodes::is_childless(x) {
        return Err(Refusal::AlreadySplit);
    }
    Ok(())
}

#[tactic(auto, unfolding(rules::specs::Refusals::report_code))]
fn report_tests(x: Node, r: Request) -> Result<(), Refusal>
    ensures { code_in result ≡ report_code x r }
{
    if !by_owner(x, r) {
        return Err(Refusal::NotOwner);
    }
    if !nodes::is_ended(x) {
        return Err(Refusal::NotEnded);
    }
    if x.stage != Node::UNREPORTED {
        return Err(Refusal::Reported);
    }
    if !finds::is_reportable(r.count, r.first, r.last) {
        return Err(Refusal::Result);
    }
    Ok(())
}

#[tactic(auto, unfolding(rules::specs::Refusals::push_code))]
fn push_tests(v: View) -> Result<(), Refusal>
    ensures { code_in result ≡ push_code v }
{
    if nodes::is_pushed(v.node) {
        return Err(Refusal::Pushed);
    }
    if v.node.stage != Node::PREPARED {
        return Err(Refusal::NoReport);
    }
    if nodes::is_unready(v.node, v.left, v.right) {
        return Err(Refusal::NotReady);
    }
    Ok(())
}

// The tests that the kind has beside those of all requests.
#[tactic(auto, unfolding(rules::specs::Refusals::kind_code))]
fn kind_tests(kind: Kind, v: View, r: Request) -> Result<(), Refusal>
    requires { r.kind ≡ pos (number_of kind) }
    ensures { code_in result ≡ kind_code v r }
{
    match kind {
        Kind::Own => own_tests(v.node),
        Kind::Advance => advance_tests(v.node, r),
        Kind::Mark => mark_tests(v, r),
        Kind::Expand => expand_tests(v.node),
        Kind::Look => Ok(()),
        Kind::Report => report_tests(v.node, r),
        Kind::Push => push_tests(v),
    }
}

// The kind of a request that is granted, or why it is refused.
#[tactic(auto, unfolding(rules::specs::Refusals::refusal))]
pub fn judge(v: View, r: Request) -> Result<Kind, Refusal>
    ensures code { code_in result ≡ refusal v r }
    ensures kind { IfOk result (λ k. r.kind ≡ pos (number_of k)) }
{
    let Ok(kind) = Kind::try_from(r.kind) else {
        return Err(Refusal::NoSuchKind);
    };
    if !numbers::in_range(r.team, 1, v.teams) {
        return Err(Refusal::NoSuchTeam);
    }
    if !numbers::in_range(r.node, 1, v.used) {
        return Err(Refusal::NoSuchNode);
    }
    kind_tests(kind, v, r)?;
    Ok(kind)
}
