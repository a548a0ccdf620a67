// shelve: lists the run of the job file on standard input.
#![tactic(auto)]

ghost use Rattle.std.specs.Prelude.{◌≡◌, ◌≤◌, IfOk, length, take};
ghost use Rattle.listing.specs.Listing.{ENOUGH, listing};

use std::io;
use std::io::{ErrorKind, Read};

// The text of a file, at the front of a buffer that is always long enough; gives how many bytes it has.
fn list_file(file: &[u8], out: &mut [u8]) -> usize
    requires { ENOUGH ≤ length out.old }
    ensures text { take result out.new ≡ listing file.now }
    ensures within { result ≤ length out.new }
{
    match listing::list_job(file, out) {
        Ok(size) => size,
        Err(_) => 0,
    }
}

// Lists the file.
fn list(rt: &HostRuntime, file: &[u8]) {
    let mut out = [0u8; texts::ENOUGH];
    let size = list_file(file, &mut out);
    if let Err(e) = rt.write_all(&out[..size]) {
        fail(rt, "standard output", e);
    }
}

// Says on standard error what failed, and why.
fn fail(rt: &HostRuntime, what: &str, error: io::Error) {
    let _ = eprintln!(rt; "shelve: {what}: {error}");
}

// Reads until the buffer is full or the input ends; gives how many bytes are at its front.
fn read_full<R: Read>(input: &mut R, buffer: &mut [u8]) -> io::Result<usize>
    ensures { IfOk result (λ n. n ≤ length buffer.new) }
{
    let mut n = 0;
    for _ in 0..u64::MAX {
        if n == buffer.len() {
            return Ok(n);
        }
        match input.read(&mut buffer[n..]) {
            Ok(0) => return Ok(n),
            Ok(more) => n += more,
            Err(e) if e.kind() == ErrorKind::Interrupted => {}
            Err(e) => return Err(e),
        }
    }
    Ok(n)
}

// Whether the input has ended.
fn has_ended<R: Read>(input: &mut R) -> io::Result<bool> {
    let mut more = [0u8; 1];
    Ok(read_full(input, &mut more)? == 0)
}

// The input at the front of the buffer, or as much of it as there is room for; gives how many bytes of it are there. An input that goes on behind
// its end, as a terminal may, is refused.
fn read_file<R: Read>(input: &mut R, file: &mut [u8]) -> io::Result<usize>
    ensures { IfOk result (λ n. n ≤ length file.new) }
{
    let n = read_full(input, file)?;
    if n < file.len() && !has_ended(input)? {
        return Err(io::Error::from(ErrorKind::InvalidInput));
    }
    Ok(n)
}

// One byte more than a file may have is enough to see that it has too many.
fn main(rt: HostRuntime) {
    let mut file = [0u8; texts::FILE + 1];
    match read_file(&mut rt.stdin(), &mut file) {
        Ok(n) => list(&rt, &file[..n]),
        Err(e) => fail(&rt, "standard input", e),
    }
}
