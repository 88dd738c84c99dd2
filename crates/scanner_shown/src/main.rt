// The scanner at work: what it finds in each text, one token after the other, each with the place past it.
#![tactic(auto)]

use scanner::Scanner;
use std::io;
use text_rules::{Kind, Token};

// A token that is no number has the value 0.
fn show_token(rt: &impl Print, token: Token) -> io::Result<()> {
    match token.kind {
        Kind::End => print!(rt; ", end 0")?,
        Kind::LineEnd => print!(rt; ", line end 0")?,
        Kind::Number(value) => print!(rt; ", number {value}")?,
        Kind::Wrong => print!(rt; ", wrong byte 0")?,
    }
    print!(rt; " to {}", token.end)
}

fn show(rt: &impl Print, name: &str, text: &[u8]) -> io::Result<()> {
    print!(rt; "{name}")?;
    let mut scanner = Scanner::new(text);
    while scanner.place < text.len() {
        let token = scanner.next();
        show_token(rt, token)?;
    }
    println!(rt)
}

fn main(rt: HostRuntime) -> io::Result<()> {
    show(&rt, "nothing", b"")?;
    show(&rt, "a number", b"12")?;
    show(&rt, "numbers, blanks and line ends", b" 0\t5 2\r\n\n4 7")?;
    show(&rt, "comments", b"# 1 2\n3#4\n#")?;
    show(&rt, "wrong bytes", b"1x-2\x0b")?;
    show(
        &rt,
        "ten digits and eleven",
        b"2147483647 0000000002 2147483648 00000000002",
    )
}
