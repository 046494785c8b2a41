// Reads what a program is given.
use std::alloc::Global;
use std::io;
use std::io::Read;

// A file of at most `limit` bytes; of a longer one a byte more, which is enough to see that it is too long.
pub fn read_input<S: Read + Drop>(heap: Global, source: S, limit: usize) -> io::Result<Vec<u8>> {
    let most = (limit as u64).saturating_add(1);
    let mut bytes = Vec::new(heap);
    source.take(most).read_to_end(&mut bytes)?;
    Ok(bytes)
}
