// `sheets`: a schedule as text from standard input, its listing to standard output. No contract can say what the system gives or takes; but
// over any reader and writer of known bytes what is written is the listing of what is read, as `run` says. Where a read fails nothing is
// written; where a read or a write fails, a line on standard error says so, and the exit status is 1.
#![tactic(auto)]

ghost use Rattle.std.specs.Prelude.{◌≡◌, ◌<◌, length, take, Err, IfSome, IfOk, OnOk};
ghost use Rattle.std.specs.declared.io.Error.{Error};
ghost use Rattle.std.specs.Io.{ReadsAtMost};
ghost use Rattle.std.specs.Io.KnownBytes.{Keeps, Appends, Consumes, IsAtEnd};
ghost use Rattle.listing_rules.specs.Lent.{answer_to, out_after};
ghost use Rattle.listing_rules.specs.Listing.{listing_of};
ghost use Rattle.sheets.specs.Rooms.{Enough};

use std::io::{ErrorKind, Read, Write};
use std::process::ExitCode;
use std::{fmt, io};

// Room for the most schedule numbers, and for the longest listing: a line for each of them, the open line and the left line, each as long
// as the longest. These are the rooms of the listing's theorem that no text finds them too short.
const NUMBERS: usize = text_rules::Schedule::ROOM;

const BYTES: usize = line_rules::LONGEST * (NUMBERS + 2);

// The same for a text of fewer than 4,096 bytes, as most are: by the theorem its listing is the same, and far less is to be cleared.
const SHORT: usize = 4096;

const SHORT_NUMBERS: usize = 2048;

const SHORT_BYTES: usize = line_rules::LONGEST * (SHORT_NUMBERS + 2);

// One byte more than a text may have, so that a longer one is seen.
const TEXT: usize = text_rules::Header::BYTES + 1;

// Reads until the area is full, the input ends or a read fails, and answers how many bytes then stand at its front. A call that was
// interrupted is made again. Nothing says that interruptions end, so the loop counts its turns, up to a number that no run uses up.
fn read_all<R: Read>(input: &mut R, area: &mut [u8]) -> io::Result<usize>
    ensures bound { ReadsAtMost result area.new }
    ensures bytes { IfOk result (λ n. Consumes (R.remaining input.old) (R.remaining input.new) (take n area.new)) }
    ensures end { IfOk result (λ n. n < length area.new → IsAtEnd (R.remaining input.new)) }
{
    let mut done = 0;
    for _turn in 0..u64::MAX {
        match input.read(&mut area[done..]) {
            Ok(0) => return Ok(done),
            Ok(n) => done += n,
            Err(e) if e.kind() == ErrorKind::Interrupted => {}
            Err(e) => return Err(e),
        }
    }
    Err(io::Error::from(ErrorKind::Interrupted))
}

// An output that takes none of the bytes is told by its kind alone.
fn by_its_kind(e: io::Error) -> io::Error {
    if e.kind() == ErrorKind::WriteZero {
        return io::Error::from(ErrorKind::WriteZero);
    }
    e
}

// Lists the text in the areas that are lent, and writes the listing out.
fn print_listing<W: Write>(
    output: &mut W,
    text: &[u8],
    schedule: &mut [i32],
    out: &mut [u8],
) -> io::Result<()>
    ensures { OnOk result (Appends (W.contents output.old) (W.contents output.new)
        (take (answer_to (length schedule.old) text.now (length out.old)).length
        (out_after (length schedule.old) text.now out.old))) }
{
    // A call that is refused lists nothing.
    let length = listing::list(text, schedule, out).unwrap_or(0);
    let listing = &out[..length];
    output.write_all(listing).map_err(by_its_kind)
}

// Lists the text in areas of these lengths. Each length has a frame of its own, so that a short text does not pay for the large areas.
#[inline(never)]
fn play_in<W: Write, const STEPS: usize, const ROOM: usize>(
    output: &mut W,
    text: &[u8],
) -> io::Result<()>
    requires { Enough STEPS ROOM text.now }
    ensures { OnOk result (Appends (W.contents output.old) (W.contents output.new) (listing_of text.now)) }
{
    print_listing(output, text, &mut [0; STEPS], &mut [0; ROOM])
}

// Lists the text in areas of its size.
fn play<W: Write>(output: &mut W, text: &[u8]) -> io::Result<()>
    ensures { OnOk result (Appends (W.contents output.old) (W.contents output.new) (listing_of text.now)) }
{
    if text.len() < SHORT {
        play_in::<W, SHORT_NUMBERS, SHORT_BYTES>(output, text)
    } else {
        play_in::<W, NUMBERS, BYTES>(output, text)
    }
}

// Why no listing, or not all of it, was written.
#[derive(Drop)]
enum Failure {
    Reading(io::Error),
    Writing(io::Error),
}

impl fmt::Display for Failure {
    fn fmt<W: fmt::Write>(&self, f: &mut fmt::Formatter<W>) -> fmt::Result {
        match self {
            Failure::Reading(e) => write!(f, "reading: {e}"),
            Failure::Writing(e) => write!(f, "writing: {e}"),
        }
    }
}

// Reads the text, as far as there is room for it, and writes its listing. Where it could not be read, nothing is written.
fn run<R: Read, W: Write>(input: &mut R, output: &mut W) -> Result<(), Failure>
    ensures lists { OnOk result (IfSome (R.remaining input.old) (λ xs.
        Appends (W.contents output.old) (W.contents output.new) (listing_of (take 65536 xs)))) }
    ensures kept { (e : Error) → result ≡ Err (Failure.Reading e) → Keeps (W.contents output.old) (W.contents output.new) }
{
    let mut text = [0; TEXT];
    let n = read_all(input, &mut text).map_err(Failure::Reading)?;
    play(output, &text[..n]).map_err(Failure::Writing)
}

fn main(rt: HostRuntime) -> ExitCode {
    match run(&mut rt.stdin(), &mut rt.stdout()) {
        Ok(()) => ExitCode::SUCCESS,
        Err(failure) => {
            // Where this cannot be written either, the status tells it.
            let _ = eprintln!(rt; "sheets: {failure}");
            ExitCode::FAILURE
        }
    }
}
