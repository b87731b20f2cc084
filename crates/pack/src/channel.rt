// The number of a channel.
ghost use Rattle.std.specs.Prelude.{◌<◌};

#[derive(Clone, Copy, PartialEq, Eq, Debug)]
pub struct ChannelNumber {
    pub number: u16,
    pub ghost in_range: { number < 16 },
}
