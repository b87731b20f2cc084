// Fields of a register word, taken out and put in by shifts and masks. An index is reduced to the number of fields.
#![tactic(auto)]

ghost use Rattle.std.specs.Prelude.{◌≡◌, ◌+◌, ◌*◌, ◌/◌, ◌%◌, ◌≤◌, ◌<◌};
ghost use Rattle.words.specs.Field.{field, with_field, bit_of, bit_value};

// The field of `width` bits from bit `at` on. A shift by 16 has no meaning, so both are below it.
fn taken_out(w: u16, width: u16, at: u16) -> u16
    requires narrow { width < 16 }
    requires inside { at < 16 }
    ensures { result ≡ field width w at }
{
    (w >> at) & ((1 << width) - 1)
}

// w with v, cut to `width` bits, in the field that starts at bit `at` and ends in the word.
pub fn put_in(w: u16, width: u16, at: u16, v: u16) -> u16
    requires narrow { width < 16 }
    requires inside { at < 16 }
    requires ends { at + width ≤ 16 }
    ensures { result ≡ with_field width w at v }
{
    w - (taken_out(w, width, at) << at) + (taken_out(v, width, 0) << at)
}

// Where the i-th of the fields of WIDTH bits begins that a word is cut into, from the low end.
fn place<const WIDTH: u16>(i: u16) -> u16
    requires narrow { WIDTH < 16 }
    requires even { WIDTH * (16 / WIDTH) ≡ 16 }
    ensures at { result ≡ WIDTH * (i % (16 / WIDTH)) }
    ensures ends { result + WIDTH ≤ 16 }
{
    WIDTH * (i % (16 / WIDTH))
}

// The i-th of them.
fn part<const WIDTH: u16>(w: u16, i: u16) -> u16
    requires narrow { WIDTH < 16 }
    requires even { WIDTH * (16 / WIDTH) ≡ 16 }
    ensures { result ≡ field WIDTH w (WIDTH * (i % (16 / WIDTH))) }
{
    taken_out(w, WIDTH, place::<WIDTH>(i))
}

// w with v, cut to WIDTH bits, in its place.
fn with_part<const WIDTH: u16>(w: u16, i: u16, v: u16) -> u16
    requires narrow { WIDTH < 16 }
    requires even { WIDTH * (16 / WIDTH) ≡ 16 }
    ensures { result ≡ with_field WIDTH w (WIDTH * (i % (16 / WIDTH))) v }
{
    put_in(w, WIDTH, place::<WIDTH>(i), v)
}

// Bit i: a channel's interrupt bit or pin.
#[tactic(auto, unfolding(words::specs::Field::bit_of))]
pub fn bit(w: u16, i: u16) -> bool
    ensures { result ≡ bit_of w (i % 16) }
{
    part::<1>(w, i) == 1
}

// Two bits, the i-th pair from the low end: a channel's request or priority.
pub fn pair(w: u16, i: u16) -> u16
    ensures { result ≡ field 2 w (2 * (i % 8)) }
{
    part::<2>(w, i)
}

// Four bits, the i-th nibble from the low end: a function number, MOD_CNT, N or a rate.
pub fn nibble(w: u16, i: u16) -> u16
    ensures { result ≡ field 4 w (4 * (i % 4)) }
{
    part::<4>(w, i)
}

// Four bits from bit 5 on: in CHANNEL_CONTROL, by which timer the channel captures and matches.
pub fn timing(w: u16) -> u16
    ensures { result ≡ field 4 w 5 }
{
    taken_out(w, 4, 5)
}

// w with bit i on or off: an interrupt bit or a pin set.
pub fn with_bit(w: u16, i: u16, on: bool) -> u16
    ensures { result ≡ with_field 1 w (i % 16) (bit_value on) }
{
    with_part::<1>(w, i, u16::from(on))
}

// w with v modulo 4 in its i-th pair: a request stored, or served.
pub fn with_pair(w: u16, i: u16, v: u16) -> u16
    ensures { result ≡ with_field 2 w (2 * (i % 8)) v }
{
    with_part::<2>(w, i, v)
}

// w with v modulo 16 in its i-th nibble: MOD_CNT counts on, or a rate changes.
pub fn with_nibble(w: u16, i: u16, v: u16) -> u16
    ensures { result ≡ with_field 4 w (4 * (i % 4)) v }
{
    with_part::<4>(w, i, v)
}
