// Lines of samples, and the even samples that a line mirrors.
use crate::case::{Case, Refusal, number};
use crate::lists::{are_wide_within, are_within, lists_in, wide_lists_in};
use crate::shown::{List, shown_list};
use lift_rows::{
    forward_row, inverse_row, inverse_row_narrow, inverse_row_widened, mirrored_after,
    mirrored_before,
};

// Returns the low and the high samples of a line, in halves of the same length as the line together.
fn split_line(line: &[i32], halves: &mut [i32]) -> Option<()> {
    let half = line.len() / 2;
    if half < 3 || line.len() % 2 != 0 || halves.len() != line.len() || !are_within(line, 1 << 24) {
        return None;
    }
    let (low, high) = halves.split_at_mut(half);
    forward_row(line, low, high);
    Some(())
}

// Returns halves, each as a list.
fn shown_halves(case: &Case, halves: &[i32]) -> Result<String, Refusal> {
    let (low, high) = halves.split_at(halves.len() / 2);
    let (low, high) = (List(low), List(high));
    Ok(format!(in case.alloc; "{low} {high}")?)
}

// A line: its low and its high samples.
fn split(case: &Case) -> Result<String, Refusal> {
    let line = lists_in(case)?;
    let mut halves = vec![in case.alloc; 0; line.len()]?;
    if split_line(&line, &mut halves).is_none() {
        return Err(Refusal::Words);
    }
    shown_halves(case, &halves)
}

// Returns the line, if it was made.
fn line_if<T>(done: Option<()>, line: &[T]) -> Option<&[T]> {
    done?;
    Some(line)
}

fn join_lists(lists: &[i64], line: &mut [i64]) -> Option<()> {
    let (low, high) = lists.split_at(lists.len() / 2);
    if low.len() < 3 || high.len() != low.len() || line.len() != lists.len() {
        return None;
    }
    if !are_wide_within(low, 1 << 38) || !are_wide_within(high, 1 << 38) {
        return None;
    }
    inverse_row(low, high, line);
    Some(())
}

// Low and high samples: their line.
fn join(case: &Case) -> Result<String, Refusal> {
    let lists = wide_lists_in(case)?;
    let mut line = vec![in case.alloc; 0; lists.len()]?;
    let done = join_lists(&lists, &mut line);
    shown_list(case.alloc, line_if(done, &line))
}

// The greatest magnitude of samples whose sums fit 32 bits.
const SMALL: u32 = 9 * (1 << 25) + 2;

fn join_narrow_lists(lists: &mut [i32], line: &mut [i32], small: bool) -> Option<()> {
    let (low, high) = lists.split_at_mut(lists.len() / 2);
    if low.len() < 3
        || high.len() != low.len()
        || line.len() / 2 != low.len()
        || line.len() % 2 != 0
    {
        return None;
    }
    if !are_within(low, SMALL) || !are_within(high, SMALL) {
        return None;
    }
    inverse_row_narrow(low, high, line, small);
    Some(())
}

// The same in 32 bits, in sums of 32 bits if they are `small`.
fn join_narrow(case: &Case) -> Result<String, Refusal> {
    let mut lists = lists_in(case)?;
    let mut line = vec![in case.alloc; 0; lists.len()]?;
    let done = join_narrow_lists(&mut lists, &mut line, case.has("small"));
    shown_list(case.alloc, line_if(done, &line))
}

fn join_widened_lists(lists: &mut [i32], line: &mut [i64], small: bool) -> Option<()> {
    let (low, high) = lists.split_at_mut(lists.len() / 2);
    if low.len() < 3
        || high.len() != low.len()
        || line.len() / 2 != low.len()
        || line.len() % 2 != 0
    {
        return None;
    }
    let most = if small { SMALL } else { i32::MAX as u32 };
    if !are_within(low, most) || !are_within(high, most) {
        return None;
    }
    inverse_row_widened(low, high, line, small);
    Some(())
}

// From 32 bits to 64, in sums of 32 bits if they are `small`.
fn join_widened(case: &Case) -> Result<String, Refusal> {
    let mut lists = lists_in(case)?;
    let mut line = vec![in case.alloc; 0; lists.len()]?;
    let done = join_widened_lists(&mut lists, &mut line, case.has("small"));
    shown_list(case.alloc, line_if(done, &line))
}

// The number of an even sample: of the one before it, or, `of` even samples, of the one that is there, at most one past the end.
fn mirrored(case: &Case) -> Result<String, Refusal> {
    let place = number(case.datum(0)) as usize;
    let Some(count) = case.optional("of") else {
        let before = mirrored_before(place);
        return Ok(format!(in case.alloc; "{before}")?);
    };
    let count = count as usize;
    if count < 3 || place > count + 1 {
        return Err(Refusal::Words);
    }
    let after = mirrored_after(count, place);
    Ok(format!(in case.alloc; "{after}")?)
}

pub(crate) fn answer(case: &Case) -> Result<String, Refusal> {
    match case.subject() {
        "split" => split(case),
        "join" => join(case),
        "join-narrow" => join_narrow(case),
        "join-widened" => join_widened(case),
        "mirrored-before" | "mirrored-after" => mirrored(case),
        _ => Err(Refusal::Words),
    }
}
