// A live book written out as a snapshot.
ghost use Rattle.std.specs.Prelude.{◌≡◌};
ghost use Rattle.decimal.specs.Laying.{Laid};
ghost use Rattle.reference.specs.Reference.{snapshot_text};
ghost use Rattle.book.specs.Shown.{shows, Good};

use crate::Book;
use settings::{Dialect, rules_of};

// Lays the text of the book at the start of the buffer, and answers where it ends; or lays nothing, where the room does not suffice.
pub fn lay(book: Book, buffer: &mut [u8]) -> Option<usize>
    requires { Good book }
    ensures { Laid buffer.old 0 (snapshot_text (shows book)) buffer.new result }
{
    let settings = book.settings;
    let dialect = settings.dialect;
    let depth = settings.depth;
    let name = settings.name;
    let n = settings.length;
    let bids = book.bids;
    let asks = book.asks;
    match dialect {
        Dialect::K => writer::k_write(depth, &name[..n], bids, asks, buffer),
        Dialect::M(_) => {
            let rules = rules_of(dialect);
            let none = [0; 1];
            let sum = checksum::m_checksum(
                rules.summed,
                &bids.words,
                bids.count,
                &asks.words,
                asks.count,
                &none[..0],
            );
            writer::m_write(&name[..n], bids, asks, sum, book.number, buffer)
        }
        Dialect::Unknown => Some(0),
    }
}
