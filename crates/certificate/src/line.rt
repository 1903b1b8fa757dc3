//! One line of a text.

ghost use Rattle.std.specs.Prelude.{◌≡◌};
ghost use Rattle.tenths.specs.Parts.{parts};
ghost use Rattle.certificate.specs.Reading.{Gives, begins, line_from};
ghost use Rattle.certificate.specs.Lines.{here};

use crate::fault::CertFault;
use tenths::{Lines, Parts};

/// A line without its line feed, and its number.
#[derive(Clone, Copy)]
pub struct Line<'a> {
    pub number: u64,
    pub text: &'a [u8],
}

impl Line<'_> {
    /// Whether its first word is this one.
    pub fn begins(&self, word: &[u8]) -> bool
        ensures { result ≡ begins word.now (parts 32 self.now.text.now) }
    {
        let mut words = Parts::new(self.text, b' ');
        match words.next() {
            None => false,
            Some(first) => first == word,
        }
    }
}

/// The next line.
#[tactic(auto, unfolding(crate::specs::Reading::line_from))]
pub fn next_line<'a>(lines: &mut Lines<'a>) -> Result<Line<'a>, CertFault>
    ensures { Gives (λ l. here l lines.new) result (line_from lines.old) }
{
    let number = lines.number();
    let Some(text) = lines.next() else {
        return Err(CertFault::Truncated);
    };
    Ok(Line { number, text })
}
