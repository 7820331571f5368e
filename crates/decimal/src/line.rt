// The numbers of a line, for a field.
ghost use Rattle.std.specs.Prelude.{◌≡◌};
ghost use Rattle.decimal.specs.Computed.Line.{items, log_items, limit_in, ReadInto};

use crate::item::Item;
use crate::number::number_at;
use crate::reader::NumberReader;

// Reads all numbers of a line to a slice, and tells how many.
#[tactic(auto, using(crate::proofs::LineTurn::begins))]
pub fn read_items<T: Item>(line: &[u8], out: &mut [T]) -> Option<usize>
    ensures { ReadInto (items T.field line.now) out.old out.new result }
{
    let mut reader = NumberReader::new(line, 0);
    for (count, place) in out.iter_mut().enumerate() {
        *place = T::from_number(reader.next()?)?;
        if line.len() < reader.at {
            return Some(count + 1);
        }
    }
    None
}

// An empty line is the empty log.
pub fn read_log(line: &[u8], out: &mut [u16]) -> Option<usize>
    ensures { ReadInto (log_items line.now) out.old out.new result }
{
    if line.is_empty() {
        return Some(0);
    }
    read_items(line, out)
}

// The one number of a line.
#[tactic(auto, unfolding(crate::specs::Computed::Line::limit_in))]
pub fn read_limit(line: &[u8]) -> Option<u64>
    ensures { result ≡ limit_in line.now }
{
    let alone = number_at(line, 0).filter(|reading| reading.end == line.len())?;
    u64::from_number(alone.number)
}
