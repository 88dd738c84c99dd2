// Shows the line writer at work. Each call lends an area of 44 dots from place `at` on, and prints the code, the length
// and the whole area afterwards.
#![tactic(auto)]

use rules::Refusal;
use std::io;

// A line by its numbers.
#[derive(Clone, Copy)]
enum Line {
    Open(i32, i32, i32, i32, i32),
    OpenWith(i32, i32, i32, i32, i32, i32),
    Batch(i32, i32, i32, i32),
    Split(i32, i32, i32),
    Left(i32, i32),
    Refused(i32, i32),
}

impl Line {
    fn write(self, area: &mut [u8]) -> Result<usize, Refusal> {
        match self {
            Line::Open(start, until, teams, cap, nodes) => {
                lines::open_line(area, start, until, teams, cap, nodes)
            }
            Line::OpenWith(start, until, teams, cap, nodes, program) => {
                lines::open_with_line(area, start, until, teams, cap, nodes, program)
            }
            Line::Batch(team, node, from, to) => lines::batch_line(area, team, node, from, to),
            Line::Split(node, left, middle) => lines::split_line(area, node, left, middle),
            Line::Left(count, stopped) => lines::left_line(area, count, stopped),
            Line::Refused(code, line) => lines::refused_line(area, code, line),
        }
    }
}

fn show(rt: &impl Print, at: usize, line: Line) -> io::Result<()> {
    let mut dots = [b'.'; 44];
    if at <= dots.len() {
        let (code, length) = match line.write(&mut dots[at..]) {
            Ok(length) => (0, length),
            Err(refusal) => (refusal.code(), 0),
        };
        print!(rt; "{code} {length} ")?;
        rt.write_all(&dots)?;
        println!(rt; "")?;
    }
    Ok(())
}

// Lines with bytes before and after them, which stay, and numbers of one to ten digits.
const WITH_ROOM: [(usize, Line); 11] = [
    (0, Line::Open(0, 5, 2, 4, 7)),
    (0, Line::OpenWith(0, 5, 2, 4, 7, 1)),
    (3, Line::OpenWith(0, 5, 2, 4, 7, 2)),
    (0, Line::Batch(1, 1, 0, 1)),
    (3, Line::Split(1, 2, 3)),
    (3, Line::Left(2, 0)),
    (3, Line::Refused(24, 0)),
    (0, Line::Batch(0, 9, 10, 2147483647)),
    (0, Line::Split(99, 100, 1000)),
    (0, Line::Left(2147483646, 32)),
    (0, Line::Refused(22, 65536)),
];

// Areas that end with the line: the longest of each kind.
const EXACT: [(usize, Line); 6] = [
    (4, Line::Open(2147483647, 2147483647, 32, 4096, 1023)),
    (2, Line::OpenWith(2147483647, 2147483647, 32, 4096, 1023, 2)),
    (8, Line::Batch(32, 1023, 2147483647, 2147483647)),
    (17, Line::Split(1023, 1022, 2147483646)),
    (17, Line::Left(2147483647, 32)),
    (22, Line::Refused(28, 2147483647)),
];

// The same lines in areas one byte shorter, and in no area at all: 28.
const TOO_SHORT: [(usize, Line); 7] = [
    (5, Line::Open(2147483647, 2147483647, 32, 4096, 1023)),
    (3, Line::OpenWith(2147483647, 2147483647, 32, 4096, 1023, 2)),
    (9, Line::Batch(32, 1023, 2147483647, 2147483647)),
    (18, Line::Split(1023, 1022, 2147483646)),
    (18, Line::Left(2147483647, 32)),
    (23, Line::Refused(28, 2147483647)),
    (44, Line::Left(0, 0)),
];

// A negative number in any place: 25, and 25 also where the area is too short.
const NEGATIVE: [(usize, Line); 12] = [
    (0, Line::Open(-1, 5, 2, 4, 7)),
    (0, Line::Open(0, 5, 2, 4, -1)),
    (0, Line::OpenWith(-1, 5, 2, 4, 7, 1)),
    (0, Line::OpenWith(0, 5, 2, 4, 7, -1)),
    (0, Line::Batch(1, -2147483648, 0, 1)),
    (0, Line::Split(1, 2, -3)),
    (0, Line::Left(-2, 0)),
    (0, Line::Left(2, -1)),
    (0, Line::Refused(24, -1)),
    (44, Line::Open(0, 5, -2, 4, 7)),
    (44, Line::OpenWith(0, 5, 2, 4, 7, -2)),
    (44, Line::Left(0, -1)),
];

fn show_all(rt: &impl Print, lines: &[(usize, Line)]) -> io::Result<()> {
    for &(at, line) in lines {
        show(rt, at, line)?;
    }
    Ok(())
}

fn main(rt: HostRuntime) -> io::Result<()> {
    show_all(&rt, &WITH_ROOM)?;
    show_all(&rt, &EXACT)?;
    show_all(&rt, &TOO_SHORT)?;
    show_all(&rt, &NEGATIVE)
}
