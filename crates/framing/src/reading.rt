ghost use Rattle.std.specs.Prelude.{◌≡◌, ◌+◌, take, IfOk, IfSome};

use crate::MOST_INPUT;
use std::alloc::Global;
use std::io;
use std::io::Read;

// Reads an input to its end, or as far as shows that it is longer than a program takes: to one byte above the limit.
pub fn read_input<R: Read + Drop>(heap: Global, input: R) -> io::Result<Vec<u8>>
    ensures { IfOk result (λ v. IfSome (R.remaining input) (λ bytes. v.items ≡ take (MOST_INPUT + 1) bytes)) }
{
    let mut bytes = Vec::new(heap);
    // the limit is a constant that a u64 holds
    input.take(MOST_INPUT as u64 + 1).read_to_end(&mut bytes)?;
    Ok(bytes)
}

#[cfg(test)]
mod tests {
    use super::*;

    // No clause can say that there is memory.
    #[test]
    fn reads_to_the_end(rt: HostRuntime) {
        let bytes: &[u8] = &[0, 0, 0, 1, 7];
        let input = read_input(rt.alloc(), bytes).expect(&rt, "no memory");
        assert_eq!(rt; input.as_slice(), bytes);
    }
}
