// The run of a schedule, in place: one table of nodes and one of records, stored into.
ghost use Rattle.std.specs.Prelude.{◌≡◌, true, ◌+◌, ◌≤◌, length, replicate, count_by};
ghost use Rattle.rules.specs.Limits.{max_teams, max_nodes};
ghost use Rattle.rules.specs.WellFormed.{well_formed};
ghost use Rattle.steps.specs.Records.{program_of, fresh_team, is_stopped};
ghost use Rattle.steps.specs.Step.{slot_of};
ghost use Rattle.text_rules.specs.Answers.{told_program};
ghost use Rattle.line_rules.specs.Line.{text};
ghost use Rattle.lines.specs.Area.{Put};
ghost use Rattle.listing_rules.specs.Steps.{run_with, last_line, run_lines};
ghost use Rattle.listing_rules.specs.Listing.{bytes_of};
ghost use Rattle.listing_rules.specs.Lent.{room_for};
ghost use Rattle.listing.specs.Table.{Runnable, stolen_after};

use crate::notes;
use ledger::table;
use rules::{Change, Ledger};
use steps::{Place, Program, Team};
use text_rules::Header;

fn fresh_teams(program: Option<u32>) -> [Team; Team::RECORDS]
    ensures { result ≡ replicate max_teams (fresh_team (program_of (told_program program))) }
{
    [Team::fresh(Program::of(program.unwrap_or(0))); Team::RECORDS]
}

fn team_slot(number: i32) -> usize
    ensures { result ≡ slot_of number }
{
    numbers::natural(number).saturating_sub(1) as usize
}

fn stopped_in(teams: &[Team]) -> usize
    ensures { result ≡ count_by (λ t. is_stopped t.place) teams.now }
{
    teams.iter().filter(|t| t.place == Place::Stopped).count()
}

// The STOLEN count after a change: a mark makes a STOLEN node, and a split gives one its children.
fn stolen_after(stolen: u32, change: Change) -> u32
    requires { stolen ≤ max_nodes }
    ensures { result ≡ stolen_after stolen change }
{
    match change {
        Change::Mark(_) => stolen + 1,
        Change::Split(_) => stolen.saturating_sub(1),
        _ => stolen,
    }
}

// The left line, after the last step.
fn last(out: &mut [u8], at: usize, book: &Ledger, teams: &[Team; Team::RECORDS]) -> usize
    requires { (at + length (text (last_line (run_with book.now teams.now))) ≤ length out.old) × (well_formed book.now ≡ true) × (book.now.teams ≤ max_teams) }
    ensures { Put out.old at (text (last_line (run_with book.now teams.now))) result out.new }
{
    let stopped = stopped_in(&teams[..book.teams as usize]);
    // A well-formed ledger is counted.
    let unclaimed = ledger::count(*book).unwrap_or(0);
    lines::add_left(out, at, unclaimed, stopped as u64)
}

// The lines of a run: the open line, a line for each step that has one, and the left line. They have room.
pub(crate) fn run(schedule: &[i32], header: Header, out: &mut [u8]) -> usize
    requires { Runnable header.opening (told_program header.program) (length schedule.now) schedule.now × (room_for (length schedule.now) ≤ length out.old) }
    ensures { Put out.old 0 (bytes_of (run_lines header.opening (told_program header.program) schedule.now)) result out.new }
{
    let cap = numbers::natural(header.opening.cap);
    let mut book = ledger::open(header.opening).ledger;
    let mut teams = fresh_teams(header.program);
    let mut stolen = 0;
    let mut end = notes::head(out, header);
    for &number in schedule {
        let seat = team_slot(number);
        let team = teams[seat];
        // A stopped team makes no request and stays.
        if team.place == Place::Stopped {
            continue;
        }
        let slot = table::slot_for(team.node);
        let node = table::node_for(team.node, book.nodes[slot]);
        let view = table::view_by(
            book.teams,
            book.room,
            book.used,
            stolen,
            book.used + 1,
            node,
        );
        let name = numbers::natural(number);
        let turn = teams::turn(name, cap, team, view);
        end = notes::note(out, end, name, turn);
        teams[seat] = turn.team;
        stolen = stolen_after(stolen, turn.change);
        table::change(&mut book, team.node, turn.change);
    }
    last(out, end, &book, &teams)
}
