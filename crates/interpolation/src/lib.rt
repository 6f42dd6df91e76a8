// Interpolation at powers of the root: points, Lagrange's basis polynomials, products of linear factors and division by one.
// A list is an array with zeros after it: it is as long as the one that it is made from, which each caller has, and a vector would hold its length a second time.
// A symbol is a plain number: a type for it would hold the field whose size it is below, once for each number of a list.
// Where a loop from the end needs places that count from the front, or two lists, a list is read by index, and not by `iter().enumerate().rev()` or by `iter().zip(..).rev()`, which would want lists of one length: of an iterator that is turned round a proof knows what it gave so far, and no place. Where places count from the end, `iter().rev().enumerate()` has them.
#![tactic(auto)]

pub mod division;
pub mod lagrange;
pub mod polynomials;
pub mod powers;
pub mod sums;
