// A number as the value of its difference to the one before, from 0.
ghost use Rattle.std.specs.Prelude.{◌≡◌, ◌<◌, ◌≤◌, ◌+◌, ◌^◌};
ghost use Rattle.number_defs.specs.Mapping.{theta, mapped};

// Returns the distance that is in the range both below and above a number.
fn theta_of(bits: u8, before: u16) -> u16
    requires bits { bits ≤ 10 }
    requires before { before < 2 ^ bits }
    ensures { result ≡ theta bits before }
{
    before.min((1 << bits) - 1 - before)
}

// Returns the mapped value of a number after the one before it; both are given as heights.
#[tactic(auto, unfolding(number_defs::specs::Mapping::mapped))]
pub(crate) fn mapped_of(bits: u8, before: u16, number: u16) -> u16
    requires bits { bits ≤ 10 }
    requires before { before < 2 ^ bits }
    requires number { number < 2 ^ bits }
    ensures is { result ≡ mapped bits before number }
    ensures below { result < 2 ^ bits }
{
    let theta = theta_of(bits, before);
    if before <= number {
        let up = number - before;
        if up <= theta { 2 * up } else { theta + up }
    } else {
        let down = before - number;
        if down <= theta {
            2 * down - 1
        } else {
            theta + down
        }
    }
}
