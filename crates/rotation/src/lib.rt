// Rotation of a pattern word, in one place and by two shifts, for any number of places either way.
#![tactic(auto)]

ghost use Rattle.std.specs.Prelude.{◌≡◌, ◌%◌};
ghost use Rattle.words.specs.Rotation.{rotated_right, Turned};

// w turned right. Places count modulo 16, so n places to the left are 16 - n, or any number that is as much modulo 16.
pub fn rotate(w: u16, places: u16) -> u16
    ensures right { result ≡ rotated_right w (places % 16) }
    ensures turned { Turned w places result }
{
    let m = places % 16;
    // where m is 0 so is the rest, and w | w is w
    let rest = (16 - m) % 16;
    (w >> m) | (w << rest)
}
