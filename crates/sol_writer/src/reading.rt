//! Reading a solution.

ghost use Rattle.std.specs.Prelude.{◌≡◌, ℕ, List, [], ◌∷◌, ◌++◌, IfOk, Ok};
ghost use Rattle.std.specs.Str.{bytes_eq};
ghost use Rattle.solomon_reader.specs.Lists.{lists};
ghost use Rattle.solomon_reader.specs.SolutionText.{IsSolution, IsSolutionText, solution_text};
ghost use Rattle.sol_writer.specs.Text.{label, view};
ghost use Rattle.sol_writer.specs.Reading.{Gives, customer_at, customers_at, fixed_at, route_at, cost_at, is_cost, reading};

use crate::fault::SolFault;
use crate::sol::Sol;
use itoa::Buffer;
use std::alloc::Global;
use tenths::{Lines, Parts, Tenths, number, read_tenths};

/// One of a line's fixed words.
fn fixed(line: u64, words: &mut Parts<'_>, text: &[u8]) -> Result<(), SolFault>
    ensures { Gives (λ _. words.new) result (fixed_at line text.now words.old) }
{
    match words.next() {
        Some(word) if word == text => Ok(()),
        _ => Err(SolFault::BadLine { line }),
    }
}

/// A customer's number.
#[tactic(auto, unfolding(crate::specs::Reading::customer_at))]
fn customer(line: u64, word: &[u8]) -> Result<u16, SolFault>
    ensures { Gives (λ c. c) result (customer_at line word.now) }
{
    match number(word) {
        Some(c) if 1 <= c && c <= 9_999 => Ok(c as u16),
        _ => Err(SolFault::BadLine { line }),
    }
}

/// The customers that the rest of a line names.
fn customers(alloc: Global, line: u64, words: &mut Parts<'_>) -> Result<Vec<u16>, SolFault>
    ensures { Gives (λ v. v.items) result (customers_at line words.old) }
{
    let mut list = Vec::new(alloc);
    while let Some(word) = words.next() {
        list.push(customer(line, word)?)?;
    }
    Ok(list)
}

/// Whether a word is the number of a route line, as it stands in the line.
fn is_label(line: u64, word: &[u8]) -> bool
    ensures { result ≡ bytes_eq word.now (label line) }
{
    let mut buffer = Buffer::new();
    let digits = buffer.format(line).as_bytes();
    match word {
        [b'#', rest @ ..] => is_colon_after(digits, rest),
        _ => false,
    }
}

/// Whether a text is some digits and a colon.
fn is_colon_after(digits: &[u8], text: &[u8]) -> bool
    ensures { result ≡ bytes_eq text.now (digits.now ++ (58 ∷ [])) }
{
    if text.len() < digits.len() {
        return false;
    }
    let (front, back) = text.split_at(digits.len());
    front == digits && back == b":".as_slice()
}

/// The route of route line `line`.
#[tactic(auto, unfolding(crate::specs::Reading::route_at))]
fn route(alloc: Global, line: u64, text: &[u8]) -> Result<Vec<u16>, SolFault>
    ensures { Gives (λ v. v.items) result (route_at line text.now) }
{
    let mut words = Parts::new(text, b' ');
    fixed(line, &mut words, b"Route")?;
    match words.next() {
        Some(word) if is_label(line, word) => {}
        _ => return Err(SolFault::BadLine { line }),
    }
    let route = customers(alloc, line, &mut words)?;
    if route.is_empty() {
        return Err(SolFault::BadLine { line });
    }
    Ok(route)
}

/// The cost of a cost line.
#[tactic(auto, unfolding(crate::specs::Reading::cost_at))]
fn cost(line: u64, text: &[u8]) -> Result<Tenths, SolFault>
    ensures { Gives (λ t. t) result (cost_at line text.now) }
{
    let mut words = Parts::new(text, b' ');
    fixed(line, &mut words, b"Cost")?;
    let bad = SolFault::BadLine { line };
    match words.next() {
        None => Err(bad),
        Some(word) => match words.next() {
            Some(_) => Err(bad),
            None => read_tenths(word).ok_or(bad),
        },
    }
}

/// Whether a line begins as a cost line where one may stand.
#[tactic(auto, unfolding(crate::specs::Reading::is_cost))]
fn is_cost_line(line: u64, text: &[u8]) -> bool
    ensures { result ≡ is_cost line text.now }
{
    let mut words = Parts::new(text, b' ');
    match words.next() {
        Some(word) => 1 < line && word == b"Cost".as_slice(),
        None => false,
    }
}

/// The solution that a text is, or its first fault.
fn solution(alloc: Global, text: &[u8]) -> Result<Sol, SolFault>
    ensures { Gives view result (reading text.now) }
{
    let mut lines = Lines::new(text);
    let mut routes = Vec::new(alloc);
    loop {
        let number = lines.number();
        let Some(line) = lines.next() else {
            return Err(SolFault::Truncated);
        };
        if is_cost_line(number, line) {
            let cost = cost(number, line)?;
            if !lines.is_done() {
                return Err(SolFault::Extra);
            }
            return Ok(Sol { routes, cost });
        }
        routes.push(route(alloc, number, line)?)?;
    }
}

/// The solution that a text is, or its first fault. The text is read line by line: `BadLine` where a
/// line is neither the next route line nor, after one route or more, a cost line; `Truncated` where
/// no line feed is left for it; `Extra` where bytes follow the cost line. `Memory` where a growth
/// was refused.
pub fn read(alloc: Global, text: &[u8]) -> Result<Sol, SolFault>
    // The text is that of what is read.
    ensures found { IfOk result (λ s. IsSolutionText text.now (lists s.routes.items) s.cost) }
    // Each text of a solution is read, unless memory runs out.
    ensures only { (routes : List (List ℕ)) (cost : ℕ) → IsSolution routes cost
        → text.now ≡ solution_text routes cost → Gives view result (Ok (routes, cost)) }
    // Which fault it is, unless memory ran out.
    ensures exact { Gives view result (reading text.now) }
{
    solution(alloc, text)
}
