// Reads a request, and prints the answer with the messages near the received word.
#![tactic(auto)]

ghost use Rattle.std.specs.Prelude.{ℕ, ◌≤◌, ◌<◌, length, take, IfOk, IfErr};
ghost use Rattle.std.specs.Io.KnownBytes.{Consumes, IsAtEnd};

use std::io;
use std::io::Read;

// Reads until the buffer is full or the input ends; how many bytes it put at the beginning of the buffer. At an error the bytes that came
// before it stand there.
fn read_full<R: Read>(input: &mut R, buffer: &mut [u8]) -> io::Result<usize>
    ensures bound { IfOk result (λ got. got ≤ length buffer.new) }
    ensures bytes { IfOk result (λ got. Consumes (R.remaining input.old) (R.remaining input.new) (take got buffer.new)) }
    ensures failed { IfErr result (λ _. (got : ℕ) × (got ≤ length buffer.new)
        × Consumes (R.remaining input.old) (R.remaining input.new) (take got buffer.new)) }
    ensures end { IfOk result (λ got. got < length buffer.new → IsAtEnd (R.remaining input.new)) }
{
    // By hand: std's `read_exact` errs where the input ends early, and its `read_to_end` wants a heap.
    let mut got = 0;
    while got < buffer.len() {
        let more = input.read(&mut buffer[got..])?;
        if more == 0 {
            return Ok(got);
        }
        got += more;
    }
    Ok(got)
}

// A text that fills the buffer is longer than any that can be read.
fn main(rt: HostRuntime) -> io::Result<()> {
    let mut text = [0u8; 512];
    let got = read_full(&mut rt.stdin(), &mut text)?;
    let mut out = [0u8; 2048];
    let len = program::answer(&text[..got], &mut out);
    rt.write_all(&out[..len])
}
