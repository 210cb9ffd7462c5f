// The level kinds, written from a level.
ghost use Rattle.std.specs.Prelude.{◌≡◌, length};
ghost use Rattle.writer.specs.Write.{write_of, written_out, written_said};
ghost use Rattle.typed.specs.Bodies.{float32};
ghost use Rattle.body.specs.Values.{amount};
ghost use Rattle.typed.specs.Levels.{level_code};

use crate::number::one;
use body::Level;
use num::Order;
use writer::Unwritten;

// Writes a dBFS, dBTG or FFS_ record, by the case of the level. Refused as `writer::write` is: a number that is not
// finite with 12, and for FFS_ one that is not above 0.
pub fn level(order: Order, level: Level, out: &mut [u8], place: usize) -> Result<usize, Unwritten>
    ensures said { written_said result
        ≡ write_of order (level_code level) (float32 order (amount level)) (length out.old) place }
    ensures left { out.new
        ≡ written_out order (level_code level) (float32 order (amount level)) out.old place }
{
    match level {
        Level::FullScale(x) => one(order, body::kinds::DBFS, body::pattern(x), out, place),
        Level::TotalGain(x) => one(order, body::kinds::DBTG, body::pattern(x), out, place),
        Level::FloatFullScale(x) => one(order, body::kinds::FFS, body::pattern(x), out, place),
    }
}
