//! The words of a call, and how lists and options are printed.

use std::alloc::Global;
use std::fmt;
use std::fmt::Display;
use std::str::FromStr;

/// Two numbers with a comma between them.
pub(crate) fn pair_of(word: &str) -> Option<(u16, u16)> {
    let (first, second) = word.split_once(',')?;
    Some((first.parse::<u16>().ok()?, second.parse::<u16>().ok()?))
}

/// Numbers with commas between them; none is a hyphen, and one before a star says how often a number stands.
pub(crate) fn list_of<T: FromStr + Copy>(alloc: Global, word: &str) -> Option<Vec<T>>
where
    T::Err: Drop,
{
    let mut list = Vec::new(alloc);
    if word == "-" {
        return Some(list);
    }
    for part in word.split(',') {
        let (count, number) = part.split_once('*').unwrap_or(("1", part));
        let (count, number) = (count.parse::<u16>().ok()?, number.parse::<T>().ok()?);
        let len = list.len().saturating_add(usize::from(count));
        list.resize(len, number).ok()?;
    }
    Some(list)
}

/// A list behind a blank, with commas between its items; nothing where it has none.
#[derive(Drop)]
pub(crate) struct List<'a, T>(pub &'a [T]);

impl<T: Display> Display for List<'_, T> {
    fn fmt<W: fmt::Write>(&self, f: &mut fmt::Formatter<W>) -> fmt::Result {
        let mut mark = " ";
        for item in self.0 {
            write!(f, "{mark}{item}")?;
            mark = ",";
        }
        Ok(())
    }
}

/// Routes, each as a list.
#[derive(Drop)]
pub(crate) struct Routes<'a>(pub &'a [Vec<u16>]);

impl Display for Routes<'_> {
    fn fmt<W: fmt::Write>(&self, f: &mut fmt::Formatter<W>) -> fmt::Result {
        for route in self.0 {
            write!(f, "{}", List(route.as_slice()))?;
        }
        Ok(())
    }
}

/// A number, or `none`.
#[derive(Drop)]
pub(crate) struct OrNone<T>(pub Option<T>);

impl<T: Display> Display for OrNone<T> {
    fn fmt<W: fmt::Write>(&self, f: &mut fmt::Formatter<W>) -> fmt::Result {
        match &self.0 {
            Some(number) => write!(f, "{number}"),
            None => write!(f, "none"),
        }
    }
}
