//! Lines of a stream, each with a limit.
use std::alloc::Global;
use std::io::BufRead;
use units::{Fault, Reason};

/// The longest line.
const LONGEST: usize = 1 << 16;

/// A line, without its end; the front of one that is longer, of which no more is held; or that there is none.
#[derive(Drop)]
pub enum Line {
    Text(Vec<u8>),
    Front(Vec<u8>),
    None,
}

/// The next line.
pub fn next_line<S: BufRead>(alloc: Global, stream: &mut S) -> Result<Line, Fault> {
    let mut line = Vec::new(alloc);
    let mut is_long = false;
    for _piece in 0..u64::MAX {
        let Ok(piece) = stream.fill_buf() else {
            return Err(Fault::Device);
        };
        if piece.is_empty() {
            return Ok(if line.is_empty() {
                Line::None
            } else {
                whole(line, is_long)
            });
        }
        let (taken, ends) = match piece.iter().position(|byte| *byte == b'\n') {
            Some(at) => (at, true),
            None => (piece.len(), false),
        };
        let room = LONGEST.saturating_sub(line.len());
        is_long = is_long || taken > room;
        line.extend_from_slice(&piece[..taken.min(room)])?;
        stream.consume(if ends { taken + 1 } else { taken });
        if ends {
            return Ok(whole(line, is_long));
        }
    }
    Err(Fault::BadRequest(Reason::Command))
}

// A line that ends here, or the front of a longer one.
fn whole(line: Vec<u8>, is_long: bool) -> Line {
    if is_long {
        Line::Front(line)
    } else {
        Line::Text(line)
    }
}
