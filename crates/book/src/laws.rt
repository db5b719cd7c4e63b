//! What another page means. The law is the contract of a function that does nothing.
ghost use Rattle.book.specs.Books.{PageIsStep};

/// Says that a book with another page replays as before, with one more step at the end.
pub fn a_page_is_a_step()
    ensures { PageIsStep }
{}
