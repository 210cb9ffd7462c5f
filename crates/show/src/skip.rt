// The line of a dump under the line of skipped bytes.
use crate::line::write_line;
use listing::Label;
use reader::Item;
use std::io;

// Why bytes were skipped; nothing for any other item.
pub(crate) fn shown(rt: &impl Print, item: Item) -> io::Result<()> {
    match item {
        Item::Skipped { cause, .. } => write_line(rt, Label::Cause, &[listing::cause(cause)]),
        _ => Ok(()),
    }
}
