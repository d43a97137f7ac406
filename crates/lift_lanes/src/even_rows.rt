//! The even samples that predict odd ones.

/// The four even samples round each odd one (docs/formats.md, "A line"), each in a row of its own: the second before the odd sample, the
/// one before it, the one after it and the second after it.
#[derive(Clone, Copy)]
pub struct EvenRows<'a, T> {
    pub second_before: &'a [T],
    pub before: &'a [T],
    pub after: &'a [T],
    pub second_after: &'a [T],
}
