use st_base::{List, WantOfMemory};
use std::alloc::Global;

mod disks;
mod streams;

fn numbers(alloc: Global, listed: &[u64]) -> Result<List<u64>, WantOfMemory> {
    let mut list = List::new(alloc);
    for number in listed {
        list.push(alloc, *number)?;
    }
    Ok(list)
}
