//! The disk of a desk that was stopped.
ghost use Rattle.std.specs.Prelude.{◌≡◌};

use board::{Publisher, Viewer};
use disk::Disk;
use std::sync::Wait;

/// The disk of a desk that was stopped. If a group has stopped it, the publisher of its board is there too: viewers then go on with what was
/// published last, until the shard is opened again.
#[derive(Drop)]
pub struct Rest<D: Disk + Drop, R: Wait + Drop> {
    /// The disk.
    pub disk: D,
    /// The publisher of the desk's board, if the board is still shown.
    pub publisher: Option<Publisher<R>>,
}

impl<D: Disk + Drop, R: Wait + Drop> Rest<D, R> {
    /// Ends the board, and gives the disk back as it is.
    pub fn into_disk(self) -> D
        ensures { result ≡ self.disk }
    {
        let Rest { disk, publisher } = self;
        drop(publisher);
        disk
    }
}

/// What a stopped shard is looked at through, once it was opened again.
#[derive(Drop)]
pub struct Restarted<R: Wait + Drop> {
    /// The viewers of the new board.
    pub viewers: Vec<Viewer>,
    /// The publisher of the old board, if that was still shown. Until it is dropped, viewers of that board go on with what was published last.
    pub former: Option<Publisher<R>>,
}
