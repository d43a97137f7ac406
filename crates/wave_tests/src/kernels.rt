// The lifting steps at each place of lists. The first list is replaced by what a step makes of it and of the lists `round` it.

use crate::case::{Case, Refusal};
use crate::lists::{
    are_wide_within, are_within, length_in, lists_in, part, wide_lists_in, wide_part,
};
use crate::shown::shown_list;
use lift_lanes::{
    EvenRows, predict_add, predict_add_narrow, predict_add_widened, predict_sub, predict_sub_onto,
    update_add, update_add_narrow, update_sub, update_sub_onto,
};

// The greatest magnitudes of samples.
const FORWARD: u32 = 1 << 26;

const WIDE: u64 = 1 << 40;

// Makes high samples of odd ones, and the four lists of even ones round them.
fn less_predicted(odd: &mut [i32], round: &[i32]) -> Option<()> {
    let count = odd.len();
    if !are_within(odd, FORWARD) {
        return None;
    }
    let a = part(round, 0, count, FORWARD)?;
    let b = part(round, 1, count, FORWARD)?;
    let c = part(round, 2, count, FORWARD)?;
    let d = part(round, 3, count, FORWARD)?;
    predict_sub(odd, a, b, c, d);
    Some(())
}

// Does the same onto a list of zeros.
fn less_predicted_onto(odd: &mut [i32], round: &[i32]) -> Option<()> {
    let count = odd.len();
    if !are_within(odd, FORWARD) {
        return None;
    }
    let mut room = [0; 64];
    let high = room.get_mut(..count)?;
    let a = part(round, 0, count, FORWARD)?;
    let b = part(round, 1, count, FORWARD)?;
    let c = part(round, 2, count, FORWARD)?;
    let d = part(round, 3, count, FORWARD)?;
    let evens = EvenRows {
        second_before: a,
        before: b,
        after: c,
        second_after: d,
    };
    predict_sub_onto(high, odd, evens);
    odd.copy_from_slice(high);
    Some(())
}

// Makes low samples of even ones, and the lists of high ones on both sides.
fn less_correction(even: &mut [i32], round: &[i32]) -> Option<()> {
    let count = even.len();
    if !are_within(even, FORWARD) {
        return None;
    }
    let before = part(round, 0, count, FORWARD)?;
    let after = part(round, 1, count, FORWARD)?;
    update_sub(even, before, after);
    Some(())
}

// Does the same onto a list of zeros.
fn less_correction_onto(even: &mut [i32], round: &[i32]) -> Option<()> {
    let count = even.len();
    if !are_within(even, FORWARD) {
        return None;
    }
    let mut room = [0; 64];
    let low = room.get_mut(..count)?;
    let before = part(round, 0, count, FORWARD)?;
    let after = part(round, 1, count, FORWARD)?;
    update_sub_onto(low, even, before, after);
    even.copy_from_slice(low);
    Some(())
}

// Makes odd samples of high ones, and the four lists of even ones.
fn plus_predicted(odd: &mut [i64], round: &[i64]) -> Option<()> {
    let count = odd.len();
    if !are_wide_within(odd, WIDE) {
        return None;
    }
    let a = wide_part(round, 0, count, WIDE)?;
    let b = wide_part(round, 1, count, WIDE)?;
    let c = wide_part(round, 2, count, WIDE)?;
    let d = wide_part(round, 3, count, WIDE)?;
    predict_add(odd, a, b, c, d);
    Some(())
}

// Makes even samples of low ones, and the lists of high ones on both sides.
fn plus_correction(even: &mut [i64], round: &[i64]) -> Option<()> {
    let count = even.len();
    if !are_wide_within(even, WIDE) {
        return None;
    }
    let before = wide_part(round, 0, count, WIDE)?;
    let after = wide_part(round, 1, count, WIDE)?;
    update_add(even, before, after);
    Some(())
}

// Makes the odd ones in 32 bits.
fn plus_predicted_narrow(odd: &mut [i32], round: &[i32]) -> Option<()> {
    let count = odd.len();
    if !are_within(odd, 1 << 30) {
        return None;
    }
    let a = part(round, 0, count, 7 << 26)?;
    let b = part(round, 1, count, 7 << 26)?;
    let c = part(round, 2, count, 7 << 26)?;
    let d = part(round, 3, count, 7 << 26)?;
    predict_add_narrow(odd, a, b, c, d);
    Some(())
}

// Makes the odd ones by sums of 64 bits.
fn plus_predicted_widened(odd: &mut [i32], round: &[i32]) -> Option<()> {
    let count = odd.len();
    if !are_within(odd, 1 << 29) {
        return None;
    }
    let a = part(round, 0, count, 1 << 30)?;
    let b = part(round, 1, count, 1 << 30)?;
    let c = part(round, 2, count, 1 << 30)?;
    let d = part(round, 3, count, 1 << 30)?;
    predict_add_widened(odd, a, b, c, d);
    Some(())
}

// Makes the even ones in 32 bits.
fn plus_correction_narrow(even: &mut [i32], round: &[i32]) -> Option<()> {
    let count = even.len();
    if !are_within(even, 3 << 29) {
        return None;
    }
    let before = part(round, 0, count, 3 << 27)?;
    let after = part(round, 1, count, 3 << 27)?;
    update_add_narrow(even, before, after);
    Some(())
}

// Does the step of this name.
fn step(name: &str, first: &mut [i32], round: &[i32]) -> Option<()> {
    match name {
        "predict-sub" => less_predicted(first, round),
        "update-sub" => less_correction(first, round),
        "predict-sub-onto" => less_predicted_onto(first, round),
        "update-sub-onto" => less_correction_onto(first, round),
        "predict-add-narrow" => plus_predicted_narrow(first, round),
        "predict-add-widened" => plus_predicted_widened(first, round),
        "update-add-narrow" => plus_correction_narrow(first, round),
        _ => None,
    }
}

// Does the step of this name for 64 bits.
fn wide_step(name: &str, first: &mut [i64], round: &[i64]) -> Option<()> {
    match name {
        "predict-add" => plus_predicted(first, round),
        "update-add" => plus_correction(first, round),
        _ => None,
    }
}

// Returns what the step of this name makes of the first of the lists.
fn first_of<'a>(name: &str, lists: &'a mut [i32], count: usize) -> Option<&'a [i32]> {
    let (first, round) = lists.split_at_mut_checked(count)?;
    step(name, first, round)?;
    Some(first)
}

fn wide_first_of<'a>(name: &str, lists: &'a mut [i64], count: usize) -> Option<&'a [i64]> {
    let (first, round) = lists.split_at_mut_checked(count)?;
    wide_step(name, first, round)?;
    Some(first)
}

// Lists of 64 bits.
fn wide(case: &Case) -> Result<String, Refusal> {
    let mut lists = wide_lists_in(case)?;
    let count = length_in(case, lists.len());
    shown_list(case.alloc, wide_first_of(case.subject(), &mut lists, count))
}

// Lists: what the step of the subject makes of the first one.
pub(crate) fn answer(case: &Case) -> Result<String, Refusal> {
    if case.subject() == "predict-add" || case.subject() == "update-add" {
        return wide(case);
    }
    let mut lists = lists_in(case)?;
    let count = length_in(case, lists.len());
    shown_list(case.alloc, first_of(case.subject(), &mut lists, count))
}
