// Numbers written in decimal, read out of bytes.
#![tactic(auto)]

ghost use Rattle.std.specs.Prelude.{◌≡◌, ◌^◌, ◌≤◌, ◌<◌, Some, None, OnSome, length};
ghost use Rattle.words.specs.Choice.{pick};
ghost use Rattle.numeral.specs.Decimal.{Small, takes, with_digit, after_digits, after_point, with_byte, numeral_of, value_of, decimal_of, small_of, short_of};

// What the bytes read so far are: the beginning of a number.
#[derive(Clone, Copy)]
enum Numeral {
    // the digits as one whole number, and how many they are
    Digits(u64, u8),
    // behind a point: the same of all digits, and how many of them follow the point
    Parts(u64, u8, u8),
}

// The f64 that is nearest to the number that the text is, if it is one of at most fifteen digits.
#[tactic(auto, using(crate::proofs::NumeralLaws::small_read), unfolding(crate::specs::Decimal::decimal_of))]
pub fn decimal_of(text: &[u8]) -> Option<f64>
    ensures { result ≡ decimal_of text.now }
{
    value_of(scan(text)?)
}

// The number that the text is, if it is a whole one of one or two digits.
#[tactic(auto, using(crate::proofs::NumeralLaws::small_read), unfolding(crate::specs::Decimal::short_of))]
pub fn short_of(text: &[u8]) -> Option<u8>
    ensures { result ≡ short_of text.now }
{
    small_of(scan(text)?)
}

#[tactic(auto, unfolding(crate::specs::Decimal::numeral_of))]
fn scan(text: &[u8]) -> Option<Numeral>
    ensures { result ≡ numeral_of (length text.now) text.now }
{
    let mut n = Numeral::Digits(0, 0);
    for b in text {
        n = with_byte(n, *b)?;
    }
    Some(n)
}

#[tactic(auto, unfolding(crate::specs::Decimal::with_byte))]
fn with_byte(n: Numeral, b: u8) -> Option<Numeral>
    requires { Small n }
    ensures { result ≡ with_byte n b }
{
    match n {
        Numeral::Digits(whole, count) => after_digits(whole, count, b),
        Numeral::Parts(whole, count, places) => after_point(whole, count, places, b),
    }
}

#[tactic(auto, unfolding(crate::specs::Decimal::after_digits))]
fn after_digits(whole: u64, count: u8, b: u8) -> Option<Numeral>
    requires { whole < 10 ^ count }
    ensures { result ≡ after_digits whole count b }
{
    if b == b'.' {
        return (1 <= count).then_some(Numeral::Parts(whole, count, 0));
    }
    Some(Numeral::Digits(with_digit(whole, count, b)?, count + 1))
}

#[tactic(auto, unfolding(crate::specs::Decimal::after_point))]
fn after_point(whole: u64, count: u8, places: u8, b: u8) -> Option<Numeral>
    requires whole_bound { whole < 10 ^ count }
    requires places_le_count { places ≤ count }
    ensures { result ≡ after_point whole count places b }
{
    Some(Numeral::Parts(with_digit(whole, count, b)?, count + 1, places + 1))
}

// The digits with one more, if the byte is one. Fifteen and no more, so that the whole number is exact in an f64.
#[tactic(auto, unfolding(crate::specs::Decimal::is_digit, crate::specs::Decimal::takes, crate::specs::Decimal::with_digit))]
fn with_digit(whole: u64, count: u8, b: u8) -> Option<u64>
    requires { whole < 10 ^ count }
    ensures value { result ≡ pick (takes count b) (Some (with_digit whole b)) None }
    ensures room { OnSome result (count < 15) }
{
    (b.is_ascii_digit() && count < 15).then(|| whole * 10 + (b - b'0') as u64)
}

// Both operands of the division are exact, so the value is rounded once.
#[tactic(auto, unfolding(crate::specs::Decimal::value_of))]
fn value_of(n: Numeral) -> Option<f64>
    requires { Small n }
    ensures { result ≡ value_of n }
{
    match n {
        Numeral::Digits(whole, digits) if 1 <= digits => Some(whole as f64),
        Numeral::Parts(whole, _, places) if 1 <= places => {
            let above = whole as f64;
            let below = 10u64.pow(places as u32) as f64;
            Some(above / below)
        }
        _ => None,
    }
}

#[tactic(auto, unfolding(crate::specs::Decimal::small_of))]
fn small_of(n: Numeral) -> Option<u8>
    requires { Small n }
    ensures { result ≡ small_of n }
{
    match n {
        Numeral::Digits(whole, 1..=2) => Some(whole as u8),
        _ => None,
    }
}
