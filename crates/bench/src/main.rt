// The bench program: reads a plan, then a script, from standard input, and prints the listing or the refusal.
#![tactic(auto)]

ghost use Rattle.std.specs.Prelude.{◌*◌, ◌≤◌, length};

use listing::report::{STORED_LENGTH, TEXT_ROOM};
use std::io::{Read, Stdin};

// Reads once, and answers how many bytes came: none at the end, or where the read failed.
fn some(input: &mut Stdin) -> usize
    ensures { result ≤ 4096 }
{
    let mut buf = [0u8; 4096];
    match input.read(&mut buf) {
        Ok(n) => n,
        Err(_) => 0,
    }
}

// Reads until `buf` is full, the input ends or a read fails, and answers how many bytes stand at the start of `buf`: a turn goes on by as
// many as came.
fn read_full(input: &mut Stdin, buf: &mut [u8]) -> usize
    ensures { result ≤ length buf.new }
{
    let mut done = 0;
    while done < buf.len() {
        match input.read(&mut buf[done..]) {
            Ok(0) | Err(_) => break,
            Ok(n) => done += n,
        }
    }
    done
}

// Counts what is left of the input, to its end, and stores none of it.
fn count_rest(input: &mut Stdin) -> usize
    ensures { result ≤ 4096 * 4294967295 }
{
    let mut sum: usize = 0;
    for _ in 0..4294967295usize {
        let n = some(input);
        if n == 0 {
            break;
        }
        sum += n;
    }
    sum
}

// A plan and the longest script are stored; what is beyond them is only counted. An output that could not be written is told on
// standard error, and the program ends as ever: whoever reads its answer sees whether it is whole.
fn main(rt: HostRuntime) {
    let mut input = rt.stdin();
    let mut stored = [0u8; STORED_LENGTH];
    let n = read_full(&mut input, &mut stored);
    let beyond = count_rest(&mut input);
    let mut out = [0u8; TEXT_ROOM];
    let k = listing::report::report(&stored[..n], beyond, &mut out);
    if rt.stdout().write_all(&out[..k]).is_err() {
        let _ = rt
            .stderr()
            .write_all(b"bench: the output could not be written\n");
    }
}
