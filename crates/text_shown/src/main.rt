// The readers at work: for each text its name, the header's answer, how long the rest is, the schedule's answer, and the area of four
// numbers, which held 9s, after it.
#![tactic(auto)]

ghost use Rattle.std.specs.Prelude.{◌≤◌};

use std::io;
use text_rules::{Header, Refused};

// The code and the line, both 0 when granted, and the header's numbers, all 0 when refused.
fn show_header(rt: &impl Print, header: Result<Header, Refused>) -> io::Result<()> {
    match header {
        Ok(h) => {
            let o = h.opening;
            print!(rt;
                " 0 0 of {} {} {} {} {}",
                o.start, o.until, o.teams, o.cap, o.nodes
            )?;
            print!(rt; " program {}", h.program.unwrap_or(0))
        }
        Err(e) => print!(rt; " {} {} of 0 0 0 0 0 program 0", e.refusal.code(), e.line),
    }
}

fn show(rt: &impl Print, name: &str, text: &[u8]) -> io::Result<()> {
    print!(rt; "{name}: header")?;
    show_header(rt, text::read_header(text))?;
    print!(rt; ", rest {}, schedule", text::rest(text).len())?;
    let mut area = [9; 4];
    let (header, count) = match text::read_schedule(text, &mut area) {
        Ok(schedule) => (Ok(schedule.header), schedule.count),
        Err(refused) => (Err(refused), 0),
    };
    show_header(rt, header)?;
    let [a, b, c, d] = area;
    println!(rt; ", count {count}, area {a} {b} {c} {d}")
}

fn show_all(rt: &impl Print, texts: &[(&str, &[u8])]) -> io::Result<()> {
    for (name, text) in texts {
        show(rt, name, text)?;
    }
    Ok(())
}

// Texts that are granted.
fn granted(rt: &impl Print) -> io::Result<()> {
    show_all(
        rt,
        &[
            ("printed example, shortened", b"0 5 2 4 7\n1 1 2\n"),
            ("no schedule", b"0 5 2 4 7\n"),
            ("no line end at the end", b"0 5 2 4 7\n1 2"),
            ("no line end after the header", b"0 5 2 4 7"),
            ("CR and tab", b"0\t5 2\r4 7\r\n1\t2\r\n"),
            ("a comment glued to a number", b"0 5 2 4 7#7\n1#2\n2 # 1\n"),
            (
                "a comment before the header",
                b"# 1 2 3\n\n  # x\n0 5 2 4 7 # first\n2 2",
            ),
        ],
    )
}

// Numbers, lines and comments that are granted.
fn granted_numbers(rt: &impl Print) -> io::Result<()> {
    show_all(
        rt,
        &[
            ("CR in a comment", b"0 5 2 4 7 # a\r1\n2"),
            (
                "NUL and bytes over 127 in a comment",
                b"0 5 2 4 7 #\x00\x80\xff\n1",
            ),
            (
                "leading zeros",
                b"0000000000 0000000005 002 4 7\n01 0000000002",
            ),
            (
                "the largest number",
                b"2147483647 2147483647 32 4096 1023\n32",
            ),
            ("many lines", b"0 5 2 4 7\n\n1\n\n2 1\n\n"),
            ("all of the area", b"0 5 2 4 7\n1 2 1 2"),
        ],
    )
}

// Headers that name the program, and one whose sixth number stands on the next line.
fn granted_programs(rt: &impl Print) -> io::Result<()> {
    show_all(
        rt,
        &[
            ("program 1", b"0 5 2 4 7 1\n1 2\n"),
            ("program 2", b"0 5 2 4 7 2\n1 2\n"),
            ("program 2, leading zeros", b"0 5 2 4 7 0000000002"),
            ("program 2, a comment", b"0 5 2 4 7 2#3\n1"),
            ("a sixth number on the next line", b"0 5 2 4 7\n2\n"),
            ("a sixth number in a comment", b"0 5 2 4 7 # 2\n1"),
        ],
    )
}

// Opening values outside limits.
fn refused_limits(rt: &impl Print) -> io::Result<()> {
    show_all(
        rt,
        &[
            ("20, until below start", b"6 5 2 4 7\n1"),
            ("20 on line 3, no teams", b"\n#\n0 5 0 4 7\n1"),
            ("20, teams 33", b"0 5 33 4 7"),
            ("20, cap 4097", b"0 5 2 4097 7"),
            ("20, no nodes", b"0 5 2 4 0"),
            ("20, nodes 1024", b"0 5 2 4 1024"),
        ],
    )
}

// A sixth number that is no program's.
fn refused_programs(rt: &impl Print) -> io::Result<()> {
    show_all(
        rt,
        &[
            ("20, program 0", b"0 5 2 4 7 0\n1"),
            ("20 on line 2, program 3", b"#\n0 5 2 4 7 3\n1"),
            ("20, program 2147483647", b"0 5 2 4 7 2147483647"),
            ("20, until below start, program 1", b"6 5 2 4 7 1"),
            ("23, a sixth number 2147483648", b"0 5 2 4 7 2147483648"),
        ],
    )
}

// Bytes that have no place in a text.
fn refused_bytes(rt: &impl Print) -> io::Result<()> {
    show_all(
        rt,
        &[
            ("22 on line 2", b"0 5 2 4 7\n1 x"),
            ("22, a minus", b"-1 5 2 4 7"),
            ("22, NUL", b"0 5 2 4 7\n1 \x00"),
            ("22, a byte over 127", b"0 5 2 4 7\n\n\x80"),
            ("22, vertical tab", b"0 5 2 4 7\x0b\n1"),
            ("22 at the x of 12x", b"0 5 2 4 12x"),
        ],
    )
}

// Numbers that are too large.
fn refused_numbers(rt: &impl Print) -> io::Result<()> {
    show_all(
        rt,
        &[
            ("23, eleven digits", b"0 5 2 4 7\n00000000001"),
            ("23, 2147483648", b"0 2147483648 2 4 7"),
            ("23, ten nines", b"0 5 2 4 7\n1\n9999999999"),
            (
                "23, thirty digits",
                b"0 5 2 4 7\n123456789012345678901234567890",
            ),
            ("23 before the x", b"0 5 2 4 7\n99999999999x"),
        ],
    )
}

// A header that has neither five nor six numbers, or is not there.
fn refused_headers(rt: &impl Print) -> io::Result<()> {
    show_all(
        rt,
        &[
            ("24, four numbers", b"\n0 5 2 4\n7\n"),
            ("24, seven numbers", b"0 5 2 4 7 1 1\n"),
            ("24, one number", b"# 0 5 2 4 7\n\n1"),
            ("24, an empty text", b""),
            ("24, comments alone", b"# 0 5 2 4 7\n#\n# 1"),
            ("24, blanks alone", b" \t\r\n \n"),
        ],
    )
}

// A schedule with a number that is no team's, or too long for the area.
fn refused_schedules(rt: &impl Print) -> io::Result<()> {
    show_all(
        rt,
        &[
            ("26, 0", b"0 5 2 4 7\n1\n0"),
            ("26, 3 of 2 teams", b"0 5 2 4 7\n1 2\n\n1 3 0"),
            ("26, 3 of 2 teams, program 2", b"0 5 2 4 7 2\n3"),
            ("27", b"0 5 2 4 7\n1 2 1 2 1\n"),
        ],
    )
}

// Two refusals in one text: 22 and 23 come before the others, and the earlier of the two before the later.
fn faults_first(rt: &impl Print) -> io::Result<()> {
    show_all(
        rt,
        &[
            ("22 before 23", b"0 5 2 4 7\nx 99999999999"),
            ("23 before 22", b"0 5 2 4 7\n99999999999 x"),
            ("22 before 24", b"0 5 2 4\nx"),
            ("23 before 24", b"0 5 2 4\n1\n2147483648"),
            ("22 before 20", b"6 5 2 4 7\nx"),
            ("23 before 20", b"6 5 2 4 7\n2147483648"),
            ("22 before 26", b"0 5 2 4 7\n3\nx"),
            ("23 before 26", b"0 5 2 4 7\n3\n2147483648"),
            ("22 before 27", b"0 5 2 4 7\n1 1 1 1 1\nx"),
            ("23 before 27", b"0 5 2 4 7\n1 1 1 1 1\n2147483648"),
        ],
    )
}

// Two refusals in one text: 24, then 20, then 26, then 27.
fn headers_first(rt: &impl Print) -> io::Result<()> {
    show_all(
        rt,
        &[
            ("24 before 20", b"6 5 2 4\n"),
            ("24 before 20, seven numbers", b"0 5 2 4 7 3 1\n"),
            ("24 before 26", b"0 5 2 4\n9"),
            ("24 before 27", b"0 5 2 4\n1 1 1 1 1"),
            ("20 before 26", b"6 5 2 4 7\n3"),
            ("20 before 26, program 3", b"0 5 2 4 7 3\n3"),
            ("20 before 27", b"6 5 2 4 7\n1 1 1 1 1"),
            ("26 before 27", b"0 5 2 4 7\n1 1 1 1 1 3"),
        ],
    )
}

// A text that begins so and goes on with the filler, of which so many bytes are shown.
fn long(rt: &impl Print, name: &str, filler: u8, start: &[u8], shown: usize) -> io::Result<()>
    requires { shown ≤ 65536 }
{
    let mut text = [filler; 65536];
    for (to, from) in text.iter_mut().zip(start) {
        *to = *from;
    }
    show(rt, name, &text[..shown])
}

// As many bytes as there may be, and one more: 21 comes before every other refusal.
fn longest(rt: &impl Print) -> io::Result<()> {
    let texts: [(u8, &[u8], &str, &str); 7] = [
        (b' ', b"0 5 2 4 7\n", "65,535 bytes", "21, 65,536 bytes"),
        (b' ', b"0 5 2 4 7\nx", "22 in 65,535 bytes", "21 before 22"),
        (b'1', b"0 5 2 4 7\n", "23 in 65,535 bytes", "21 before 23"),
        (b' ', b"0 5 2 4\n", "24 in 65,535 bytes", "21 before 24"),
        (b' ', b"0 5 0 4 7\n", "20 in 65,535 bytes", "21 before 20"),
        (b' ', b"0 5 2 4 7\n3", "26 in 65,535 bytes", "21 before 26"),
        (
            b' ',
            b"0 5 2 4 7\n1 1 1 1 1",
            "27 in 65,535 bytes",
            "21 before 27",
        ),
    ];
    for (filler, start, most, past) in texts {
        long(rt, most, filler, start, 65535)?;
        long(rt, past, filler, start, 65536)?;
    }
    Ok(())
}

fn main(rt: HostRuntime) -> io::Result<()> {
    granted(&rt)?;
    granted_numbers(&rt)?;
    granted_programs(&rt)?;
    refused_limits(&rt)?;
    refused_programs(&rt)?;
    refused_bytes(&rt)?;
    refused_numbers(&rt)?;
    refused_headers(&rt)?;
    refused_schedules(&rt)?;
    faults_first(&rt)?;
    headers_first(&rt)?;
    longest(&rt)
}
