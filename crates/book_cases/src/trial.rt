// Code over any book, proved once for all of them.
ghost use Rattle.std.specs.Prelude.{◌≡◌};

use book::Book;
use rights::Entry;

// The entry that would stand first if e were put too; the book is left as it was.
pub(crate) fn first_with<B: Book>(book: &mut B, e: Entry) -> Option<Entry>
    ensures same { B.Book.entries book.new ≡ B.Book.entries book.old }
    ensures ceiling { B.Book.most book.new ≡ B.Book.most book.old }
{
    if book.holds(e) || book.put(e).is_err() {
        return book.at(0);
    }
    let first = book.at(0);
    let _ = book.take(e);
    first
}
