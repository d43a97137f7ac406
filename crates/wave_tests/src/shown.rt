// How lists, rows and blocks are written.
use crate::case::Refusal;
use std::alloc::Global;
use std::fmt;

// Returns whether what was compared is the same, in a word.
pub(crate) fn word_of(is_same: bool) -> &'static str {
    if is_same { "same" } else { "different" }
}

// Numbers with commas between them.
#[derive(Clone, Copy)]
pub(crate) struct List<'a, T>(pub &'a [T]);

impl<T: fmt::Display> fmt::Display for List<'_, T> {
    fn fmt<W: fmt::Write>(&self, f: &mut fmt::Formatter<W>) -> fmt::Result {
        for place in 0..self.0.len() {
            if place > 0 {
                write!(f, ",")?;
            }
            write!(f, "{}", self.0[place])?;
        }
        Ok(())
    }
}

// Numbers with blanks between them.
#[derive(Clone, Copy)]
pub(crate) struct Counts<'a>(pub &'a [usize]);

impl fmt::Display for Counts<'_> {
    fn fmt<W: fmt::Write>(&self, f: &mut fmt::Formatter<W>) -> fmt::Result {
        let mut gap = "";
        for count in self.0.iter() {
            write!(f, "{gap}{count}")?;
            gap = " ";
        }
        Ok(())
    }
}

// Returns a list as it is written, if there is one.
pub(crate) fn shown_list<T: fmt::Display>(
    alloc: Global,
    list: Option<&[T]>,
) -> Result<String, Refusal> {
    match list {
        Some(list) => Ok(format!(in alloc; "{}", List(list))?),
        None => Err(Refusal::Words),
    }
}

// Numbers that are the same: how many there are, if there are more than one, and the number.
#[derive(Clone, Copy)]
struct Repeated {
    count: usize,
    number: i64,
}

impl fmt::Display for Repeated {
    fn fmt<W: fmt::Write>(&self, f: &mut fmt::Formatter<W>) -> fmt::Result {
        if self.count > 1 {
            write!(f, "{}*", self.count)?;
        }
        write!(f, "{}", self.number)
    }
}

// Rows that are the same: how many there are, and in brackets the runs of numbers that are the same.
#[derive(Clone, Copy)]
struct SameRows<'a> {
    count: usize,
    row: &'a [i64],
}

impl fmt::Display for SameRows<'_> {
    fn fmt<W: fmt::Write>(&self, f: &mut fmt::Formatter<W>) -> fmt::Result {
        let Some(first) = self.row.first() else {
            return Ok(());
        };
        write!(f, " {}*[", self.count)?;
        let mut run = Repeated {
            count: 0,
            number: *first,
        };
        for number in self.row.iter() {
            if *number != run.number {
                write!(f, "{run} ")?;
                run = Repeated {
                    count: 0,
                    number: *number,
                };
            }
            run.count = run.count.wrapping_add(1);
        }
        write!(f, "{run}]")
    }
}

// Rows of this width, as runs of rows that are the same.
#[derive(Clone, Copy)]
pub(crate) struct Rows<'a> {
    pub numbers: &'a [i64],
    pub width: usize,
}

impl fmt::Display for Rows<'_> {
    fn fmt<W: fmt::Write>(&self, f: &mut fmt::Formatter<W>) -> fmt::Result {
        let mut run = SameRows { count: 0, row: &[] };
        for row in self.numbers.chunks_exact(self.width.max(1)) {
            if row != run.row {
                write!(f, "{run}")?;
                run = SameRows { count: 0, row };
            }
            run.count = run.count.wrapping_add(1);
        }
        write!(f, "{run}")
    }
}

// Blocks that are the same, 64 numbers: how many there are, and the numbers other than 0 with their positions.
#[derive(Clone, Copy)]
struct Run<'a> {
    count: usize,
    numbers: &'a [i32],
}

impl fmt::Display for Run<'_> {
    fn fmt<W: fmt::Write>(&self, f: &mut fmt::Formatter<W>) -> fmt::Result {
        if self.count == 0 {
            return Ok(());
        }
        write!(f, " {}*", self.count)?;
        for (position, number) in self.numbers.iter().enumerate() {
            if *number != 0 {
                write!(f, " {position}={number}")?;
            }
        }
        Ok(())
    }
}

// The numbers of blocks, as runs of blocks that are the same.
#[derive(Clone, Copy)]
pub(crate) struct Blocks<'a>(pub &'a [i32]);

impl fmt::Display for Blocks<'_> {
    fn fmt<W: fmt::Write>(&self, f: &mut fmt::Formatter<W>) -> fmt::Result {
        let mut run = Run {
            count: 0,
            numbers: &[],
        };
        for numbers in self.0.chunks_exact(64) {
            if numbers != run.numbers {
                write!(f, "{run}")?;
                run = Run { count: 0, numbers };
            }
            run.count = run.count.wrapping_add(1);
        }
        write!(f, "{run}")
    }
}
