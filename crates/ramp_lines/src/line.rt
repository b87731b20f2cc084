// How a line is read.
ghost use Rattle.std.specs.Prelude.{◌≡◌, ◌≤◌, ◌<◌, IfSome, length};
ghost use Rattle.ramp_lines.specs.Lines.{space_from, sheet_by, request_of};

use ramp::Ramp;

// What a line asks: a ramp by the sheet, at a tick length in milliseconds and so many rates.
#[derive(Clone, Copy, PartialEq, Debug)]
pub struct Request {
    pub sheet: Ramp,
    pub tick: f64,
    pub rates: u8,
}

// The request of a line without its end, if it has either form.
#[tactic(auto, unfolding(crate::specs::Lines::asked_by, crate::specs::Lines::request_of, words::specs::Choice::ask))]
pub fn read(line: &[u8]) -> Option<Request>
    ensures { result ≡ request_of line.now }
{
    if line.len() < 2 || line[1] != b' ' {
        return None;
    }
    let a = space(line, 2)?;
    let b = space(line, a + 1)?;
    let c = space(line, b + 1)?;
    let x = numeral::decimal_of(&line[2..a])?;
    let y = numeral::decimal_of(&line[a + 1..b])?;
    let tick = numeral::decimal_of(&line[b + 1..c])?;
    let rates = numeral::short_of(&line[c + 1..])?;
    let sheet = sheet_by(line[0], x, y)?;
    Some(Request { sheet, tick, rates })
}

// The place of the first space from `at` on, if there is one.
fn space(line: &[u8], at: usize) -> Option<usize>
    requires { at ≤ length line.now }
    ensures place { result ≡ space_from line.now at }
    ensures behind { IfSome result (λ place. at ≤ place) }
    ensures within { IfSome result (λ place. place < length line.now) }
{
    let place = text::find(line, at, b' ');
    (place < line.len()).then_some(place)
}

// The ramp of two numbers, by the letter.
fn sheet_by(letter: u8, x: f64, y: f64) -> Option<Ramp>
    ensures { result ≡ sheet_by letter x y }
{
    match letter {
        b'P' => Some(Ramp::Periods(x, y)),
        b'S' => Some(Ramp::Speeds(x, y)),
        _ => None,
    }
}
