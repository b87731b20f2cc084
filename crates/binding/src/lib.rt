// Which channels are bound, of the state that lent words hold, and the requests that bind them.
#![tactic(auto)]

ghost use Rattle.std.specs.Prelude.{◌≡◌, ◌&&◌, leb, ℕ, IfSome, ◌*◌, ◌<◌, ◌≢◌};
ghost use Rattle.words.specs.Choice.{pick};
ghost use Rattle.words.specs.Field.{field};
ghost use Rattle.unit.specs.TheUnit.{last, with_binding, stepping, reaches, is_bound};
ghost use Rattle.unit.specs.Gate.{is_free, requested};
ghost use Rattle.pack.specs.Packing.{state_in};

use motor::Phase;
use pack::{ChannelNumber, Words};

// The group of the primary c is bound.
#[tactic(auto, using(crate::proofs::Reaching::bound_else), unfolding(unit::specs::TheUnit::stepping, motor::specs::Group::bound))]
pub fn stepping(s: &Words, c: ChannelNumber) -> bool
    ensures { result ≡ stepping (state_in s.now) c.number }
{
    !matches!(cells::phase(s, c), Phase::Resting)
}

// The group of p, bound or not, has the channel c.
fn spans(s: &Words, c: u16, p: ChannelNumber) -> bool
    ensures { result ≡ (leb p.number c && leb c (last (state_in s.now) p.number)) }
{
    p.number <= c && c <= fields::last(s, p)
}

// It is bound and has it.
fn reaches(s: &Words, c: u16, p: ChannelNumber) -> bool
    ensures { result ≡ reaches (state_in s.now) c p.number }
{
    stepping(s, p) && spans(s, c, p)
}

// Some bound group has the channel c.
fn is_bound(s: &Words, c: ChannelNumber) -> bool
    ensures { result ≡ is_bound (state_in s.now) c.number }
{
    stepping(s, c)
        || (0..16).any(
            |p|
                requires { p < 16 }
            { reaches(s, c.number, ChannelNumber { number: p }) },
        )
}

// Unbound and without a pending request.
pub fn is_free(s: &Words, c: ChannelNumber) -> bool
    ensures { result ≡ is_free (state_in s.now) c.number }
{
    !is_bound(s, c) && registers::request(s, c) == 0
}

// A step request binds the group of c unless it is under way.
fn bind_at_rest(s: &mut Words, c: ChannelNumber)
    ensures { state_in s.new ≡ pick (stepping (state_in s.old) c.number) (state_in s.old) (with_binding (state_in s.old) c.number) }
{
    if !stepping(s, c) {
        stores::bind(s, c);
    }
}

// What a taken request of channel c does: 2 initialise, 3 step, which binds a group at rest.
#[tactic(auto, unfolding(unit::specs::Gate::requested))]
pub fn requested(s: &mut Words, c: ChannelNumber, r: u16)
    ensures { state_in s.new ≡ requested (state_in s.old) c.number r }
{
    match r {
        2 => registers::put_request(s, c, 2),
        3 => {
            bind_at_rest(s, c);
            registers::put_request(s, c, 3);
        }
        _ => {}
    }
}

// The one channel that a word of requests asks, by its pair from the low end: most words ask one alone, and nothing needs to be tried
// out before it.
pub fn lone(v: u16) -> Option<u16>
    ensures { IfSome result (λ n. (n < 8) × ((k : ℕ) → k < 8 → k ≢ n → field 2 v (2 * k) ≡ 0)) }
{
    let k = v.trailing_zeros() as u16 / 2;
    if k < 8 && bitfield::with_pair(v, k, 0) == 0 {
        return Some(k);
    }
    None
}
