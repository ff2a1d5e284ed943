//! Reading an instance text.

use instance_text::read_instance;
use std::alloc::Global;

/// How many demand points the instance has that a text says, and 0 where it says none.
#[unsafe(no_mangle)]
pub extern "C" fn bsss_bench_read(alloc: Global, text: &[u8]) -> usize {
    match read_instance(alloc, text) {
        Ok(instance) => instance.points().len(),
        Err(_) => 0,
    }
}
