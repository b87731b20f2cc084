// The whole number nearest to a float, worked out from the float's bits.
#![tactic(auto)]

ghost use Rattle.std.specs.Prelude.{◌≡◌, ◌^◌, ◌<◌};
ghost use Rattle.nearest.specs.Counting.{half_up, in_count, count_of};

// The whole number nearest to q, halves upward: none where it is not from 0 to $7FFF.
pub fn nearest(q: f64) -> Option<u16>
    ensures { result ≡ count_of q }
{
    if q.is_nan() {
        return None;
    }
    let bits = q.to_bits();
    let exponent = (bits >> 52) & 0x7ff;
    let digits = bits & 0xf_ffff_ffff_ffff;
    // less than one half away from 0
    if exponent < 1022 {
        return Some(0);
    }
    // 2^15 away from 0, or further: an infinity has the exponent 2047
    if 1037 < exponent {
        return None;
    }
    // below zero a half still goes up to 0
    if bits >> 63 == 1 {
        if exponent == 1022 && digits == 0 {
            return Some(0);
        }
        return None;
    }
    in_count(half_up(0x10_0000_0000_0000 + digits, 1075 - exponent))
}

// A whole number as a count.
fn in_count(k: u64) -> Option<u16>
    ensures { result ≡ in_count k }
{
    (k <= 0x7fff).then(|| k as u16)
}

// m / 2^places to the nearest whole number, halves upward.
fn half_up(m: u64, places: u64) -> u64
    requires m_bound { m < 2 ^ 53 }
    requires some_places { 0 < places }
    requires few_places { places < 63 }
    ensures { result ≡ half_up m (2 ^ places) }
{
    (m + (1 << (places - 1))) >> places
}
