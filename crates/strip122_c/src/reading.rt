// The parts that the calls which read packets share.
ghost use Rattle.std.specs.Prelude.{◌≤◌, IfOk};
ghost use Rattle.strip122_c.specs.Decoding.{GivesWish, Reports};

use crate::decode::{DecodeRefusal, Made};
use crate::decoded::{DECODED_SIZE, NOTHING, Strip122Decoded, answer_of, report_of};
use crate::encoder::WRONG_SIZE;
use crate::ranges::{Strip122Range, put_damage};
use crate::setting::refusal_answer;
use crate::wish::{Strip122Wish, read_wish};
use base_122::DecodeWish;

/// Returns the wish of a call. If the report or the wish is refused, it returns the answer, and writes the report if that has its size.
pub(crate) fn wish_for(
    wish: &Strip122Wish,
    decoded: &mut Strip122Decoded,
) -> Result<DecodeWish, u32>
    ensures { GivesWish wish.now decoded.old decoded.new result }
{
    if decoded.size != DECODED_SIZE {
        return Err(WRONG_SIZE);
    }
    match read_wish(wish) {
        Ok(wish) => Ok(wish),
        Err(refusal) => {
            *decoded = NOTHING;
            Err(refusal_answer(refusal))
        }
    }
}

/// Puts the ranges of damaged rows into the places, writes the report, and returns the answer.
pub(crate) fn report_into(
    ended: &Result<Made, DecodeRefusal>,
    ranges: &mut [Strip122Range],
    decoded: &mut Strip122Decoded,
) -> u32
    requires { IfOk ended.now (λ made. made.done.damage.rows ≤ 262144) }
    ensures { Reports ended.now ranges.old ranges.new decoded.new result }
{
    let count = put_damage(ended, ranges);
    *decoded = report_of(ended, count);
    answer_of(ended, count)
}
