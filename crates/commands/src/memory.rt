// Memory that commands lend to calls: made at its first use, and kept for the next.
ghost use Rattle.std.specs.Prelude.{◌≡◌, [], IfOk, length};

use std::alloc::{AllocError, Global};

/// Scratch words and room for a record. They may hold anything.
#[derive(Drop)]
pub struct Memory {
    pub scratch: Vec<u64>,
    pub room: Vec<u8>,
}

impl Memory {
    /// None of either yet.
    pub fn new(alloc: Global) -> Memory
        ensures scratch { result.scratch.items ≡ [] }
        ensures room { result.room.items ≡ [] }
    {
        Memory {
            scratch: Vec::new(alloc),
            room: Vec::new(alloc),
        }
    }
}

/// The first places of a list, so many of them. A list that is shorter is made as long.
pub fn lend<T: Copy>(list: &mut Vec<T>, count: usize, value: T) -> Result<&mut [T], AllocError>
    ensures { IfOk result (λ lent. length lent.now ≡ count) }
{
    if list.len() < count {
        list.resize(count, value)?;
    }
    Ok(&mut list.as_mut_slice()[..count])
}
