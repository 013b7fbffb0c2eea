//! How much memory that was given back the C library keeps for what is asked for next.

use std::alloc::Global;

/// The octets of a block that glibc takes from the system by itself, and gives back to it (`mallopt(3)`, M_MMAP_THRESHOLD: less than 32 MiB).
const BLOCK: usize = 25_165_824;

/// Asks for a block and gives it back: glibc keeps blocks of that size from then on, and what is free at the end of each of its arenas as long as that is
/// less than twice as much. A journal that forgets gives back tens of megabytes at once, which else would go to the system, page by page, and be cleared by
/// it when they are wanted again. If the block is refused, nothing is gained.
pub fn keep_memory(alloc: Global) {
    drop(Vec::<u8>::with_capacity(alloc, BLOCK));
}
