// The line writer: each line of the listing, with its line end, in an area that the caller lends.
#![tactic(auto)]

ghost use Rattle.std.specs.Prelude.{◌≡◌, false, true, cond, [], ◌∷◌, ◌+◌, ◌≤◌, ◌<◌, leb, pos, length, map, ◌++◌, MatchResult};
ghost use Rattle.std.specs.List.{list_any};
ghost use Rattle.rules.specs.declared.refusal.Refusal.TheVariants.{Negative};
ghost use Rattle.numbers.specs.Fields.{nat_of};
ghost use Rattle.numbers.specs.Progress.{negative};
ghost use Rattle.line_rules.specs.Decimal.{decimal};
ghost use Rattle.line_rules.specs.Line.{open_line, open_with_line, batch_line, split_line, left_line, refused_line, number, text, whole};
ghost use Rattle.line_rules.specs.Written.{answer, after, answer_to, area_after, told};
ghost use Rattle.lines.specs.Area.{Put, added, added_to, place_after};
ghost use Rattle.lines.specs.Fields.{fields, parts, Few};

use rules::Refusal;

// The most bytes of a number with the space before it: a number of 64 bits has 20 digits at most.
const FIELD: usize = 21;

// How many digits n has.
fn width(n: u64) -> usize
    ensures { (result ≡ length (decimal n)) × (result ≤ 20) }
{
    match n.checked_ilog10() {
        Some(k) => k as usize + 1,
        None => 1,
    }
}

// Each put writes into the area from `at` on, and answers the place after what it wrote.
fn put(area: &mut [u8], at: usize, bytes: &[u8]) -> usize
    requires { at + length bytes.now ≤ length area.old }
    ensures { Put area.old at bytes.now result area.new }
{
    let end = at + bytes.len();
    area[at..end].copy_from_slice(bytes);
    end
}

fn put_byte(area: &mut [u8], at: usize, byte: u8) -> usize
    requires { at < length area.old }
    ensures { Put area.old at (byte ∷ []) result area.new }
{
    area[at] = byte;
    at + 1
}

// The last digit is found first. The digits are counted, so each is written where it belongs.
fn put_number(area: &mut [u8], at: usize, n: u64) -> usize
    requires { at + length (decimal n) ≤ length area.old }
    ensures { Put area.old at (decimal n) result area.new }
{
    let end = at + width(n);
    let mut high = n;
    for place in (at..end).rev() {
        area[place] = b'0' + (high % 10) as u8;
        high /= 10;
    }
    end
}

// The numbers, each after its space.
fn put_fields(area: &mut [u8], at: usize, numbers: &[u64]) -> usize
    requires { at + length (fields numbers.now) ≤ length area.old }
    ensures { Put area.old at (fields numbers.now) result area.new }
{
    let mut next = at;
    for &n in numbers {
        next = put_byte(area, next, b' ');
        next = put_number(area, next, n);
    }
    next
}

// A word and the numbers after it.
fn put_run(area: &mut [u8], at: usize, word: &[u8], numbers: &[u64]) -> usize
    requires { at + length (word.now ++ fields numbers.now) ≤ length area.old }
    ensures { Put area.old at (word.now ++ fields numbers.now) result area.new }
{
    let next = put(area, at, word);
    put_fields(area, next, numbers)
}

fn fields_width(numbers: &[u64]) -> usize
    requires { length numbers.now ≤ 8 }
    ensures { (result ≡ length (fields numbers.now)) × (result ≤ 168) }
{
    numbers.iter().map(|&n| 1 + width(n)).sum()
}

// Whether so many bytes of words and these numbers have room after the first `at` bytes of an area. They are measured only where the
// longest numbers would have none.
fn fits(room: usize, at: usize, words: usize, numbers: &[u64]) -> bool
    requires { Few words numbers.now }
    ensures { result ≡ leb (at + (words + length (fields numbers.now))) room }
{
    if room < at {
        return false;
    }
    let left = room - at;
    if words + FIELD * numbers.len() <= left {
        return true;
    }
    words + fields_width(numbers) <= left
}

// A line that is a word and numbers, after the first `at` bytes of an area, and the place after it. Where it has no room nothing is put.
fn add(area: &mut [u8], at: usize, word: &[u8], numbers: &[u64]) -> Option<usize>
    requires { Few (length word.now + 1) numbers.now }
    ensures value { result ≡ place_after (whole word.now (parts numbers.now)) at (length area.old) }
    ensures area_after { area.new ≡ added (whole word.now (parts numbers.now)) at area.old }
{
    if !fits(area.len(), at, word.len() + 1, numbers) {
        return None;
    }
    let next = put_run(area, at, word, numbers);
    Some(put_byte(area, next, b'\n'))
}

// A line after the first `at` bytes of an area, where it has room, and else nothing; the place after it. Each of these is total, and no
// number that it is given is negative: it is for callers that know both.
#[tactic(auto, using(crate::proofs::Added::or_before))]
pub fn add_open(
    area: &mut [u8],
    at: usize,
    start: u64,
    until: u64,
    teams: u64,
    cap: u64,
    nodes: u64,
) -> usize
    ensures value { result ≡ added_to (text (open_line (pos start) (pos until) (pos teams) (pos cap) (pos nodes))) at (length area.old) }
    ensures area_after { area.new ≡ added (text (open_line (pos start) (pos until) (pos teams) (pos cap) (pos nodes))) at area.old }
{
    add(area, at, b"open", &[start, until, teams, cap, nodes]).unwrap_or(at)
}

// The open line of a header that names a program.
#[tactic(auto, using(crate::proofs::Added::or_before))]
pub fn add_open_with(
    area: &mut [u8],
    at: usize,
    start: u64,
    until: u64,
    teams: u64,
    cap: u64,
    nodes: u64,
    program: u64,
) -> usize
    ensures value { result ≡ added_to (text (open_with_line (pos start) (pos until) (pos teams) (pos cap) (pos nodes) (pos program))) at (length area.old) }
    ensures area_after { area.new ≡ added (text (open_with_line (pos start) (pos until) (pos teams) (pos cap) (pos nodes) (pos program))) at area.old }
{
    add(
        area,
        at,
        b"open",
        &[start, until, teams, cap, nodes, program],
    )
    .unwrap_or(at)
}

#[tactic(auto, using(crate::proofs::Added::or_before))]
pub fn add_batch(area: &mut [u8], at: usize, team: u64, node: u64, from: u64, to: u64) -> usize
    ensures value { result ≡ added_to (text (batch_line (pos team) (pos node) (pos from) (pos to))) at (length area.old) }
    ensures area_after { area.new ≡ added (text (batch_line (pos team) (pos node) (pos from) (pos to))) at area.old }
{
    add(area, at, b"batch", &[team, node, from, to]).unwrap_or(at)
}

#[tactic(auto, using(crate::proofs::Added::or_before))]
pub fn add_split(area: &mut [u8], at: usize, node: u64, left: u64, middle: u64) -> usize
    ensures value { result ≡ added_to (text (split_line (pos node) (pos left) (pos middle))) at (length area.old) }
    ensures area_after { area.new ≡ added (text (split_line (pos node) (pos left) (pos middle))) at area.old }
{
    add(area, at, b"split", &[node, left, middle]).unwrap_or(at)
}

// The one line that has a word inside it, by `add`'s rule.
fn left(area: &mut [u8], at: usize, count: u64, stopped: u64) -> Option<usize>
    ensures value { result ≡ place_after (text (left_line (pos count) (pos stopped))) at (length area.old) }
    ensures area_after { area.new ≡ added (text (left_line (pos count) (pos stopped))) at area.old }
{
    if !fits(area.len(), at, b"left stopped\n".len(), &[count, stopped]) {
        return None;
    }
    let next = put_run(area, at, b"left", &[count]);
    let next = put_run(area, next, b" stopped", &[stopped]);
    Some(put_byte(area, next, b'\n'))
}

#[tactic(auto, using(crate::proofs::Added::or_before))]
pub fn add_left(area: &mut [u8], at: usize, count: u64, stopped: u64) -> usize
    ensures value { result ≡ added_to (text (left_line (pos count) (pos stopped))) at (length area.old) }
    ensures area_after { area.new ≡ added (text (left_line (pos count) (pos stopped))) at area.old }
{
    left(area, at, count, stopped).unwrap_or(at)
}

#[tactic(auto, using(crate::proofs::Added::or_before))]
pub fn add_refused(area: &mut [u8], at: usize, code: u64, line: u64) -> usize
    ensures value { result ≡ added_to (text (refused_line (pos code) (pos line))) at (length area.old) }
    ensures area_after { area.new ≡ added (text (refused_line (pos code) (pos line))) at area.old }
{
    add(area, at, b"refused", &[code, line]).unwrap_or(at)
}

// The numbers as a line has them, where none is negative.
fn natural<const N: usize>(numbers: &[i32; N]) -> Result<[u64; N], Refusal>
    ensures { MatchResult result
        (λ ns. (list_any negative numbers.now ≡ false) × (ns ≡ map nat_of numbers.now))
        (λ e. (list_any negative numbers.now ≡ true) × (e ≡ Negative)) }
{
    let mut natural = [0; N];
    for (i, &n) in numbers.iter().enumerate() {
        if numbers::is_negative(n) {
            return Err(Refusal::Negative);
        }
        natural[i] = u64::from(numbers::natural(n));
    }
    Ok(natural)
}

// A line that is a word and numbers at the start of an area.
fn write<const N: usize>(area: &mut [u8], word: &[u8], numbers: &[i32; N]) -> Result<usize, Refusal>
    requires { Few (length word.now + 1) numbers.now }
    ensures value { told result ≡ answer_to word.now (map number numbers.now) (length area.old) }
    ensures area_after { area.new ≡ area_after word.now (map number numbers.now) area.old }
{
    let numbers = natural(numbers)?;
    add(area, 0, word, &numbers).ok_or(Refusal::ShortLine)
}

// A line at the start of an area.
pub fn open_line(
    area: &mut [u8],
    start: i32,
    until: i32,
    teams: i32,
    cap: i32,
    nodes: i32,
) -> Result<usize, Refusal>
    ensures value { told result ≡ answer (open_line start until teams cap nodes) (length area.old) }
    ensures area_after { area.new ≡ after (open_line start until teams cap nodes) area.old }
{
    write(area, b"open", &[start, until, teams, cap, nodes])
}

pub fn open_with_line(
    area: &mut [u8],
    start: i32,
    until: i32,
    teams: i32,
    cap: i32,
    nodes: i32,
    program: i32,
) -> Result<usize, Refusal>
    ensures value { told result ≡ answer (open_with_line start until teams cap nodes program) (length area.old) }
    ensures area_after { area.new ≡ after (open_with_line start until teams cap nodes program) area.old }
{
    write(area, b"open", &[start, until, teams, cap, nodes, program])
}

pub fn batch_line(
    area: &mut [u8],
    team: i32,
    node: i32,
    from: i32,
    to: i32,
) -> Result<usize, Refusal>
    ensures value { told result ≡ answer (batch_line team node from to) (length area.old) }
    ensures area_after { area.new ≡ after (batch_line team node from to) area.old }
{
    write(area, b"batch", &[team, node, from, to])
}

pub fn split_line(area: &mut [u8], node: i32, left: i32, middle: i32) -> Result<usize, Refusal>
    ensures value { told result ≡ answer (split_line node left middle) (length area.old) }
    ensures area_after { area.new ≡ after (split_line node left middle) area.old }
{
    write(area, b"split", &[node, left, middle])
}

pub fn left_line(area: &mut [u8], count: i32, stopped: i32) -> Result<usize, Refusal>
    ensures value { told result ≡ answer (left_line count stopped) (length area.old) }
    ensures area_after { area.new ≡ after (left_line count stopped) area.old }
{
    let [count, stopped] = natural(&[count, stopped])?;
    left(area, 0, count, stopped).ok_or(Refusal::ShortLine)
}

pub fn refused_line(area: &mut [u8], code: i32, line: i32) -> Result<usize, Refusal>
    ensures value { told result ≡ answer (refused_line code line) (length area.old) }
    ensures area_after { area.new ≡ after (refused_line code line) area.old }
{
    write(area, b"refused", &[code, line])
}
