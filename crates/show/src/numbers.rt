// Numbers written one after the other in a line.
use crate::line::Line;
use listing::{hex_word, short};
use std::io;

// The first n values of a slice; all of them where there are fewer.
pub(crate) fn first<T>(xs: &[T], n: usize) -> &[T] {
    &xs[..n.min(xs.len())]
}

// Writes a line to standard output: the first n numbers of a slice in decimal, each after a space; all of them where
// there are fewer. This call and the next stand by name, with n beside the slice, as docs/CALLS.md has them.
pub fn print_shorts(rt: &impl Print, xs: &[i16], n: usize) -> io::Result<()> {
    Line::empty().with_each(rt, first(xs, n), short)?.end(rt)
}

// The same of 32-bit patterns, in eight hex digits each.
pub fn print_patterns(rt: &impl Print, xs: &[u32], n: usize) -> io::Result<()> {
    Line::empty().with_each(rt, first(xs, n), hex_word)?.end(rt)
}
