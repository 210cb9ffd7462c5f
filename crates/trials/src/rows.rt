// How many items a stream has, in both orders, and how many rows a table of them needs.
use num::Order;
use std::io;

pub(crate) fn both(rt: &impl Print, s: &[u8]) -> io::Result<()> {
    println!(rt; "items big {}", reader::count(Order::Big, s))?;
    println!(rt; "items little {}", reader::count(Order::Little, s))?;
    println!(rt; "rows {}", reader::rows_for(s.len()))?;
    // The rows for so many bytes less than the most that can be asked for.
    println!(rt; "most rows {}", reader::rows_for(usize::MAX - s.len()))
}
