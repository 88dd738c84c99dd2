// The lines of a listing, each where the one before it ended. The area has room for each, so that none is refused.
ghost use Rattle.std.specs.Prelude.{◌≡◌, ◌+◌, ◌≤◌, pos, length};
ghost use Rattle.numbers.specs.Fields.{nat_of};
ghost use Rattle.numbers.specs.Progress.{signed};
ghost use Rattle.rules.specs.Refused.{code_of};
ghost use Rattle.text_rules.specs.Answers.{told_program};
ghost use Rattle.line_rules.specs.Line.{refused_line, text};
ghost use Rattle.lines.specs.Area.{Put};
ghost use Rattle.listing_rules.specs.Listing.{bytes_of};
ghost use Rattle.listing_rules.specs.Steps.{note_of, head_line};

use rules::{Kind, Opening};
use steps::Turned;
use text_rules::{Header, Refused};

// A number that is not negative, as wide as those of a line.
fn wide(n: i32) -> u64
    ensures { result ≡ nat_of n }
{
    u64::from(numbers::natural(n))
}

// The open line: the header's numbers, with the program's where it has one.
pub(crate) fn head(out: &mut [u8], header: Header) -> usize
    requires { 0 + length (text (head_line header.opening (told_program header.program))) ≤ length out.old }
    ensures { Put out.old 0 (text (head_line header.opening (told_program header.program))) result out.new }
{
    let o = header.opening;
    let start = wide(o.start);
    let until = wide(o.until);
    let teams = wide(o.teams);
    let cap = wide(o.cap);
    let nodes = wide(o.nodes);
    match header.program {
        None => lines::add_open(out, 0, start, until, teams, cap, nodes),
        Some(n) => lines::add_open_with(out, 0, start, until, teams, cap, nodes, u64::from(n)),
    }
}

// The line of a step, where it has one.
pub(crate) fn note(out: &mut [u8], at: usize, team: u32, t: Turned) -> usize
    requires { at + length (bytes_of (note_of (pos team) t.kind t.node t.answer)) ≤ length out.old }
    ensures { Put out.old at (bytes_of (note_of (pos team) t.kind t.node t.answer)) result out.new }
{
    let a = t.answer;
    if a.code != 0 {
        return at;
    }
    let node = u64::from(t.node);
    let from = u64::from(a.from);
    if t.kind == Kind::Advance.number() {
        return lines::add_batch(out, at, u64::from(team), node, from, u64::from(a.to));
    }
    if t.kind == Kind::Expand.number() {
        return lines::add_split(out, at, node, u64::from(a.left), from);
    }
    at
}

// The line of a refused text.
pub(crate) fn refusal(out: &mut [u8], e: Refused) -> usize
    requires { 0 + length (text (refused_line (signed (code_of e.refusal)) (signed e.line))) ≤ length out.old }
    ensures { Put out.old 0 (text (refused_line (signed (code_of e.refusal)) (signed e.line))) result out.new }
{
    let line = e.line.min(Opening::UNTIL);
    lines::add_refused(out, 0, u64::from(e.refusal.code()), u64::from(line))
}
