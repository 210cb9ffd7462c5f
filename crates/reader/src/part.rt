// The body of a chunk, as a part of the stream.
ghost use Rattle.std.specs.Prelude.{◌≡◌};
ghost use Rattle.reader.specs.Item.{item_said};
ghost use Rattle.reader.specs.Part.{body_at, body_in};

use crate::Item;

// The body of an item of the stream s: for a chunk whose body lies within s, the bytes after its header; else no byte.
pub fn body_of(s: &[u8], item: Item) -> &[u8]
    ensures { result.now ≡ body_in s.now (item_said item) }
{
    let Item::Chunk { place, size, .. } = item else {
        return &[];
    };
    body_at(s, place, size)
}

// The body of a chunk of this size at a place. The sum of place and size is not made before it is known to fit: they
// come from an item, which may be of another stream.
fn body_at(s: &[u8], place: usize, size: usize) -> &[u8]
    ensures { result.now ≡ body_at s.now place size }
{
    if s.len() < frame::HEADER {
        return &s[..0];
    }
    let most = s.len() - frame::HEADER;
    if most < place {
        return &s[..0];
    }
    if most - place < size {
        return &s[..0];
    }
    let from = place + frame::HEADER;
    let to = from + size;
    &s[from..to]
}
