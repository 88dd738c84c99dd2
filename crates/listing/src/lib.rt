// The listing of a text, written into an area that the caller lends: the text is judged, and its run is carried out in place.
#![tactic(auto)]

ghost use Rattle.std.specs.Prelude.{◌≡◌, ◌≤◌, length};
ghost use Rattle.text_rules.specs.Answers.{area_of};
ghost use Rattle.line_rules.specs.Written.{at_start};
ghost use Rattle.listing_rules.specs.Listing.{lines_of, bytes_of};
ghost use Rattle.listing_rules.specs.Lent.{room_for, has_room, told, answer_to, out_after, schedule_after};

use rules::Refusal;

mod notes;
mod run;

// Whether so many bytes have room for a line for each step and for two lines more, each as long as the longest.
fn has_room(steps: usize, bytes: usize) -> bool
    ensures { result ≡ has_room steps bytes }
{
    let longest = bytes / line_rules::LONGEST;
    if longest < 2 {
        return false;
    }
    steps <= longest - 2
}

// The listing of a text at the front of `out`, which has room for it, and its length.
fn write(text: &[u8], schedule: &mut [i32], out: &mut [u8]) -> usize
    requires { room_for (length schedule.old) ≤ length out.old }
    ensures value { result ≡ length (bytes_of (lines_of (length schedule.old) text.now)) }
    ensures out_after { out.new ≡ at_start (bytes_of (lines_of (length schedule.old) text.now)) out.old }
    ensures schedule_after { schedule.new ≡ area_of text.now schedule.old }
{
    match text::read_schedule(text, schedule) {
        Ok(s) => run::run(&schedule[..s.count], s.header, out),
        Err(e) => notes::refusal(out, e),
    }
}

// The listing of a text at the front of `out`, and its length. The area `schedule` is for the text's team numbers. A call is refused, with
// 28, where `out` is too short for the longest listing that so many numbers can have; it then changes neither area.
pub fn list(text: &[u8], schedule: &mut [i32], out: &mut [u8]) -> Result<usize, Refusal>
    ensures value { told result ≡ answer_to (length schedule.old) text.now (length out.old) }
    ensures out_after { out.new ≡ out_after (length schedule.old) text.now out.old }
    ensures schedule_after { schedule.new ≡ schedule_after text.now schedule.old (length out.old) }
{
    if !has_room(schedule.len(), out.len()) {
        return Err(Refusal::ShortLine);
    }
    Ok(write(text, schedule, out))
}
