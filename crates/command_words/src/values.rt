// The values of keys.
ghost use Rattle.std.specs.Prelude.{◌≡◌, ◌≢◌, ◌<◌, ◌≤◌, ◌^◌, ◌↔◌, ℕ, All, IsTrue, MatchOption, decimal};
ghost use Rattle.command_words.specs.declared.values.Value.{Value};
ghost use Rattle.command_words.specs.Values.{IsValueText, IsWeightDigit};

use crate::tables::Form;
use base_122::{Select, Weights};
use itoa::Buffer;

/// The value of a key.
#[derive(Clone, Copy)]
pub enum Value {
    Number(u32),
    Cap(u64),
    Flag(bool),
    StopDc,
    StopAt { plane: u32, stage: u32 },
    Weights(Weights),
    Select(Select),
}

impl Value {
    ghost use Rattle.command_words.specs.Values.{form_of};

    /// Returns the form in which it is written.
    pub fn form(self) -> Form
        ensures { result ≡ form_of self }
    {
        match self {
            Value::Number(_) => Form::Number,
            Value::Cap(_) => Form::Cap,
            Value::Flag(_) => Form::Flag,
            Value::StopDc | Value::StopAt { .. } => Form::Stop,
            Value::Weights(_) => Form::Weights,
            Value::Select(_) => Form::Select,
        }
    }
}

// The greatest cap.
const MOST: u64 = 1 << 40;

// Returns whether the text is that of the number.
fn is_written_so(number: u64, text: &str) -> bool
    ensures { IsTrue result ↔ (text.now ≡ decimal number) }
{
    Buffer::new().format(number) == text
}

// Reads a number, which is 0 or digits without a leading zero.
fn read_number(text: &str) -> Option<u32>
    ensures { MatchOption result ((n : ℕ) → n < 2 ^ 32 → text.now ≢ decimal n) (λ n. text.now ≡ decimal n) }
{
    let Ok(number) = text.parse::<u32>() else {
        return None;
    };
    if is_written_so(u64::from(number), text) {
        Some(number)
    } else {
        None
    }
}

// Reads a cap, which is written as a number, and is at most 2^40.
fn read_cap(text: &str) -> Option<u64>
    ensures { MatchOption result ((n : ℕ) → n ≤ 2 ^ 40 → text.now ≢ decimal n) (λ n. (n ≤ 2 ^ 40) × (text.now ≡ decimal n)) }
{
    let Ok(number) = text.parse::<u64>() else {
        return None;
    };
    if number <= MOST && is_written_so(number, text) {
        Some(number)
    } else {
        None
    }
}

fn read_flag(text: &str) -> Option<Value>
    ensures { MatchOption result ((value : Value) → IsValueText Form.Flag text.now value → ⊥) (IsValueText Form.Flag text.now) }
{
    match text {
        "0" => Some(Value::Flag(false)),
        "1" => Some(Value::Flag(true)),
        _ => None,
    }
}

fn read_stop(text: &str) -> Option<Value>
    ensures { MatchOption result ((value : Value) → IsValueText Form.Stop text.now value → ⊥) (IsValueText Form.Stop text.now) }
{
    if text == "dc" {
        return Some(Value::StopDc);
    }
    let Some((plane, stage)) = text.split_once('.') else {
        return None;
    };
    let Some(plane) = read_number(plane) else {
        return None;
    };
    let Some(stage) = read_number(stage) else {
        return None;
    };
    Some(Value::StopAt { plane, stage })
}

fn are_weight_digits(digits: &[u8]) -> bool
    ensures { IsTrue result ↔ All IsWeightDigit digits.now }
{
    digits.iter().all(|digit| b'0' <= *digit && *digit <= b'3')
}

fn read_weights(text: &str) -> Option<Value>
    ensures { MatchOption result ((value : Value) → IsValueText Form.Weights text.now value → ⊥) (IsValueText Form.Weights text.now) }
{
    let digits = text.as_bytes();
    if digits.len() != 10 {
        return None;
    }
    if !are_weight_digits(digits) {
        return None;
    }
    let mut shifts = [0; 10];
    for i in 0..10 {
        shifts[i] = digits[i] - b'0';
    }
    Some(Value::Weights(Weights { shifts }))
}

fn read_select(text: &str) -> Option<Value>
    ensures { MatchOption result ((value : Value) → IsValueText Form.Select text.now value → ⊥) (IsValueText Form.Select text.now) }
{
    match text {
        "heuristic" => Some(Value::Select(Select::Heuristic)),
        "optimal" => Some(Value::Select(Select::Optimal)),
        _ => None,
    }
}

/// Returns the value that is written as this text, if there is one.
pub fn read_value(form: Form, text: &str) -> Option<Value>
    ensures { MatchOption result ((value : Value) → IsValueText form text.now value → ⊥) (IsValueText form text.now) }
{
    match form {
        Form::Number => read_number(text).map(Value::Number),
        Form::Cap => read_cap(text).map(Value::Cap),
        Form::Flag => read_flag(text),
        Form::Stop => read_stop(text),
        Form::Weights => read_weights(text),
        Form::Select => read_select(text),
    }
}
