// The texts of a pack, with an error whose kind a caller can tell.
use crate::print_texts;
use std::alloc::AllocError;
use std::io;

// As `print_texts`, with the error of the read or write that failed, or of the kind `OutOfMemory` where a text found no memory.
pub fn print_cases<F: Fn(&[u8]) -> Result<String, AllocError>>(
    rt: &HostRuntime,
    path: &str,
    text_of: F,
) -> io::Result<()>
    requires { F.IsAlwaysCallable text_of }
{
    print_texts(rt, path, text_of)
}
