// The text that drives a run: its judgement, its header and its schedule. The text is read once: what the schedule says is kept aside until
// the whole text is judged, for a refused text leaves the caller's area as it was.
#![tactic(auto)]

ghost use Rattle.std.specs.Prelude.{◌≡◌, ◌≤◌, ◌&&◌, length};
ghost use Rattle.rules.specs.Limits.{opens};
ghost use Rattle.text_rules.specs.Judgement.{max_bytes, is_header, opening_of, may_name, is_team};
ghost use Rattle.text_rules.specs.Answers.{told_header, header_of, RestItself, told_schedule, schedule_of, area_of};
ghost use Rattle.text_rules.specs.Demands.{schedule_room};
ghost use Rattle.text.specs.Passes.{HeadRead, RowAsked, noted, RowRead, counted, NumbersAsked, NumbersRead, named, HeadingRead, judged};

use rules::{Opening, Refusal};
use text_rules::{Header, Kind, Refused, Schedule, Token};

// Where a pass begins: a place of the text, and the line on which it stands.
#[derive(Clone, Copy)]
struct Spot {
    line: u32,
    place: usize,
}

// A line's numbers: how many, the first of them, and the place after the line's end.
#[derive(Clone, Copy)]
struct Row {
    count: usize,
    first: [u32; Header::MOST],
    end: usize,
}

// The numbers of the schedule: the line of the first that is no team's, and how many there are.
#[derive(Clone, Copy)]
struct Tally {
    stranger: Option<u32>,
    count: usize,
}

// The header, with the schedule's numbers and the place where they begin.
#[derive(Clone, Copy)]
struct Heading {
    header: Header,
    tally: Tally,
    end: usize,
}

// The refusal, with its line.
fn refused(refusal: Refusal, line: u32) -> Refused
    ensures { result ≡ record { refusal = refusal; line = line } }
{
    Refused { refusal, line }
}

// ---- The passes, one after the other: to the header, through its line, through the schedule.

// The place before the first number. A wrong byte before it is 22, and a text without a number has no header.
fn find_head(text: &[u8]) -> Result<Spot, Refused>
    requires { length text.now ≤ max_bytes }
    ensures { HeadRead text.now result }
{
    let mut spot = Spot { line: 1, place: 0 };
    loop {
        let token = tokens::token_at(text, spot.place);
        match token.kind {
            Kind::End => return Err(refused(Refusal::HeaderCount, 0)),
            Kind::LineEnd => spot.line += 1,
            Kind::Number(_) => return Ok(spot),
            Kind::Wrong => return Err(refused(Refusal::WrongByte, spot.line)),
        }
        spot.place = token.end;
    }
}

impl Row {
    // Counts a number, and keeps it where it is among the first.
    fn note(&mut self, value: u32)
        requires { self.old.count ≤ max_bytes }
        ensures { self.new ≡ noted self.old value }
    {
        if self.count < Header::MOST {
            self.first[self.count] = value;
        }
        self.count += 1;
    }
}

// The numbers of the line on which the pass begins.
fn read_row(text: &[u8], head: Spot) -> Result<Row, Refused>
    requires { RowAsked text.now head }
    ensures { RowRead text.now head result }
{
    let mut row = Row {
        count: 0,
        first: [0; Header::MOST],
        end: head.place,
    };
    loop {
        let token = tokens::token_at(text, row.end);
        row.end = token.end;
        match token.kind {
            Kind::End | Kind::LineEnd => return Ok(row),
            Kind::Number(value) if value > Token::LARGEST => {
                return Err(refused(Refusal::LargeNumber, head.line));
            }
            Kind::Number(value) => row.note(value),
            Kind::Wrong => return Err(refused(Refusal::WrongByte, head.line)),
        }
    }
}

fn is_team(teams: u32, value: u32) -> bool
    ensures { result ≡ is_team teams value }
{
    (1..=teams).contains(&value)
}

impl Tally {
    // Counts a number that stands on the line.
    fn note(&mut self, teams: u32, line: u32, value: u32)
        requires { self.old.count ≤ max_bytes }
        ensures { self.new ≡ counted self.old teams line value }
    {
        if !is_team(teams, value) {
            self.stranger = self.stranger.or(Some(line));
        }
        self.count += 1;
    }
}

// The schedule's numbers from a place on, kept at the front of the area.
fn read_numbers(text: &[u8], from: Spot, teams: u32, kept: &mut [i32]) -> Result<Tally, Refused>
    requires { NumbersAsked text.now from (length kept.old) }
    ensures { NumbersRead text.now from teams kept.old result kept.new }
{
    let mut spot = from;
    let mut tally = Tally {
        stranger: None,
        count: 0,
    };
    loop {
        let token = tokens::token_at(text, spot.place);
        spot.place = token.end;
        match token.kind {
            Kind::End => return Ok(tally),
            Kind::LineEnd => spot.line += 1,
            Kind::Number(value) if value > Token::LARGEST => {
                return Err(refused(Refusal::LargeNumber, spot.line));
            }
            Kind::Number(value) => {
                kept[tally.count] = numbers::to_signed(value);
                tally.note(teams, spot.line, value);
            }
            Kind::Wrong => return Err(refused(Refusal::WrongByte, spot.line)),
        }
    }
}

// Room for all numbers of a schedule. Only its length is known to a caller, which is all that lending it needs.
fn no_numbers() -> [i32; Schedule::ROOM]
    ensures { schedule_room ≡ length result }
{
    [0; Schedule::ROOM]
}

// ---- The judgement.

impl Row {
    // Whether a header may have so many numbers.
    fn is_header(&self) -> bool
        ensures { result ≡ is_header self.now.count }
    {
        (Header::LEAST..=Header::MOST).contains(&self.count)
    }

    fn opening(&self) -> Opening
        ensures { result ≡ opening_of self.now.first }
    {
        let [start, until, teams, cap, nodes, _] = self.first;
        Opening {
            start: numbers::to_signed(start),
            until: numbers::to_signed(until),
            teams: numbers::to_signed(teams),
            cap: numbers::to_signed(cap),
            nodes: numbers::to_signed(nodes),
        }
    }

    // The number after those of the opening.
    fn program(&self) -> Option<u32>
        ensures { result ≡ named self.now.count self.now.first }
    {
        if self.count <= Header::LEAST {
            None
        } else {
            Some(self.first[Header::LEAST])
        }
    }
}

// Whether the header's numbers are within their limits.
fn is_good(opening: Opening, program: Option<u32>) -> bool
    ensures { result ≡ (opens opening && may_name program) }
{
    opening.is_good() && program.is_none_or(|n| (1..=Header::PROGRAMS).contains(&n))
}

// The header's tests over the whole text, and the header where it is granted. The schedule's numbers are kept.
fn judge_header(text: &[u8], kept: &mut [i32]) -> Result<Heading, Refused>
    requires { schedule_room ≡ length kept.old }
    ensures { HeadingRead text.now kept.old result kept.new }
{
    if text.len() > Header::BYTES {
        return Err(refused(Refusal::TooLong, 0));
    }
    let head = find_head(text)?;
    let row = read_row(text, head)?;
    let opening = row.opening();
    let program = row.program();
    let body = Spot {
        line: head.line + 1,
        place: row.end,
    };
    let tally = read_numbers(text, body, numbers::natural(opening.teams), kept)?;
    if !row.is_header() {
        return Err(refused(Refusal::HeaderCount, head.line));
    }
    if !is_good(opening, program) {
        return Err(refused(Refusal::Opening, head.line));
    }
    Ok(Heading {
        header: Header { opening, program },
        tally,
        end: row.end,
    })
}

impl Tally {
    // How many numbers there are, where each is a team's and all have room.
    fn judged(&self, room: usize) -> Result<usize, Refused>
        ensures { result ≡ judged self.now room }
    {
        if let Some(line) = self.stranger {
            return Err(refused(Refusal::Stranger, line));
        }
        if room < self.count {
            return Err(refused(Refusal::ShortSchedule, 0));
        }
        Ok(self.count)
    }
}

// ---- The readers.

pub fn read_header(text: &[u8]) -> Result<Header, Refused>
    ensures { told_header result ≡ header_of text.now }
{
    let mut kept = no_numbers();
    let heading = judge_header(text, &mut kept)?;
    Ok(heading.header)
}

// The rest of the caller's text itself, from the byte after the header's line end.
pub fn rest(text: &[u8]) -> &[u8]
    ensures { RestItself text.entry result }
{
    let mut kept = no_numbers();
    match judge_header(text, &mut kept) {
        Ok(heading) => &text[heading.end..],
        Err(_) => &text[text.len()..],
    }
}

pub fn read_schedule(text: &[u8], area: &mut [i32]) -> Result<Schedule, Refused>
    ensures value { told_schedule result ≡ schedule_of (length area.old) text.now }
    ensures area_after { area.new ≡ area_of text.now area.old }
{
    let mut kept = no_numbers();
    let Heading { header, tally, .. } = judge_header(text, &mut kept)?;
    let count = tally.judged(area.len())?;
    area[..count].copy_from_slice(&kept[..count]);
    Ok(Schedule { header, count })
}
