// Prints what was asked, and a listing as three rows: the sheets in the order of the listing, who was granted each, and the node that lists it.
use rules::{Answer, Kind, Ledger};
use sheet_order::{Piece, Pieces};
use std::{fmt, io};

// Who asked for what, and the answer. A step that is refused asks for nothing: its kind is 0.
#[derive(Clone, Copy)]
pub(crate) struct Asked {
    pub(crate) team: u32,
    pub(crate) kind: u32,
    pub(crate) node: u32,
    pub(crate) answer: Answer,
}

fn verb(kind: Kind) -> &'static str {
    match kind {
        Kind::Own => "takes",
        Kind::Advance => "claims from",
        Kind::Mark => "marks",
        Kind::Expand => "splits",
        _ => "looks at",
    }
}

impl fmt::Display for Asked {
    fn fmt<W: fmt::Write>(&self, f: &mut fmt::Formatter<W>) -> fmt::Result {
        let Asked {
            team,
            kind,
            node,
            answer,
        } = *self;
        match Kind::try_from(numbers::to_signed(kind)) {
            Ok(kind) => write!(f, "team {team} {} node {node}", verb(kind))?,
            Err(_) => write!(f, "team {team} makes no request")?,
        }
        if answer.code == 0 {
            f.write_str(" granted")
        } else {
            write!(f, " refused {}", answer.code)
        }
    }
}

// A cell for each sheet of a piece. Numbers below 100 stand one under another.
fn cells<F: Fn(Piece, u32) -> u32>(rt: &impl Print, p: Piece, cell: &F) -> io::Result<()>
    requires { F.IsAlwaysCallable cell.now }
{
    for sheet in p.from..p.to {
        print!(rt; " {:>2}", cell(p, sheet))?;
    }
    Ok(())
}

// The slots behind the last piece have no sheets.
fn row<F: Fn(Piece, u32) -> u32>(
    rt: &impl Print,
    name: &str,
    listing: &Pieces,
    cell: F,
) -> io::Result<()>
    requires { F.IsAlwaysCallable cell }
{
    print!(rt; "  {name:>5}")?;
    for p in &listing.items {
        cells(rt, *p, &cell)?;
    }
    println!(rt)
}

// How to read a listing.
pub(crate) fn legend(rt: &impl Print) -> io::Result<()> {
    println!(rt; "sheet is what the root lists in its order")?;
    println!(rt; "team is who was granted the sheet and 0 where it is unclaimed")?;
    println!(rt; "node is the node that lists it")
}

pub(crate) fn listing(rt: &impl Print, l: Ledger, granted: Option<Pieces>) -> io::Result<()> {
    let Some(listing) = granted.and_then(|row| sheet_order::in_order(l, row)) else {
        return println!(rt; "  no listing");
    };
    row(rt, "sheet", &listing, |_, sheet| sheet)?;
    row(rt, "team", &listing, |p, _| p.team)?;
    row(rt, "node", &listing, |p, _| p.node)
}
