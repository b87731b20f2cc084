// Numbers put on a page.
#![tactic(auto)]

ghost use Rattle.std.specs.Prelude.{◌≡◌, [], ◌∷◌, ◌<◌};
ghost use Rattle.text.specs.Placing.{Wrote};
ghost use Rattle.text.specs.Printing.{digit_byte, hex_word, digits, decimal, number_line};

use text::Page;

// At most twenty digits, with no zero in front.
#[tactic(auto, unfolding(text::specs::Printing::decimal))]
pub fn decimal(page: &mut Page, n: u64)
    ensures { Wrote page.old (decimal n) page.new }
{
    digits(page, n, 19);
}

// A line of a letter and a number.
pub fn number_line(page: &mut Page, letter: u8, n: u64)
    ensures { Wrote page.old (number_line letter n) page.new }
{
    page.pair(letter, b' ');
    decimal(page, n);
    page.put(b'\n');
}

fn digits(page: &mut Page, n: u64, more: u8)
    ensures { Wrote page.old (digits more n) page.new }
{
    if more == 0 {
        digit(page, n % 10);
    } else if n < 10 {
        digit(page, n);
    } else {
        digits(page, n / 10, more - 1);
        digit(page, n % 10);
    }
}

// Four hexadecimal digits.
pub fn word(page: &mut Page, w: u16)
    ensures { Wrote page.old (hex_word w) page.new }
{
    let n = u64::from(w);
    digit(page, n / 4096);
    digit(page, n / 256 % 16);
    digit(page, n / 16 % 16);
    digit(page, n % 16);
}

fn digit(page: &mut Page, d: u64)
    requires { d < 16 }
    ensures { Wrote page.old (digit_byte d ∷ []) page.new }
{
    page.put(digit_byte(d));
}

#[tactic(auto, using(words::proofs::ChoiceLaws::cases), unfolding(text::specs::Printing::digit_byte))]
fn digit_byte(d: u64) -> u8
    requires { d < 16 }
    ensures { result ≡ digit_byte d }
{
    if d < 10 {
        b'0' + d as u8
    } else {
        b'A' + (d as u8 - 10)
    }
}
