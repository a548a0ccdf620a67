// Job files run and compared: the arguments name a job file and the text that it must give, and so on; prints a line for each.
#![tactic(auto)]

ghost use Rattle.std.specs.Prelude.{◌≡◌, ◌≤◌, IfOk, length, take};

use std::io::{Read, Write};
use std::{env, fs, io};

// The file of that name, at the front of the buffer, or as much of it as there is room for; gives how many bytes of it are there.
fn read_named(rt: &HostRuntime, name: &str, buffer: &mut [u8]) -> io::Result<usize>
    ensures within { IfOk result (λ n. n ≤ length buffer.new) }
    ensures front { IfOk result (λ n. n ≡ length (take n buffer.new)) }
{
    let mut bytes = Vec::new(rt.alloc());
    let file = fs::open(rt, name)?;
    file.take(buffer.len() as u64).read_to_end(&mut bytes)?;
    let n = bytes.len().min(buffer.len());
    buffer[..n].copy_from_slice(&bytes.as_slice()[..n]);
    Ok(n)
}

// Whether the first bytes of a buffer are the text of that name.
fn is_named(rt: &HostRuntime, text: &[u8], size: usize, name: &str) -> io::Result<bool> {
    if text.len() < size {
        return Ok(false);
    }
    let mut expected = [0u8; texts::ENOUGH];
    let n = read_named(rt, name, &mut expected)?;
    Ok(&text[..size] == &expected[..n])
}

// Whether the job file of one name gives the text of the other.
fn gives(rt: &HostRuntime, job: &str, expected: &str) -> io::Result<bool> {
    let mut file = [0u8; texts::FILE + 1];
    let n = read_named(rt, job, &mut file)?;
    let mut text = [0u8; texts::ENOUGH];
    match listing::list_job(&file[..n], &mut text) {
        Ok(size) => is_named(rt, &text, size, expected),
        Err(_) => Ok(false),
    }
}

// The line of one job file.
fn compare(rt: &HostRuntime, job: &str, expected: &str) -> io::Result<()> {
    print!(rt; "{job}")?;
    if gives(rt, job, expected)? {
        return println!(rt; " as expected");
    }
    println!(rt; " differs")
}

// The program's own name comes first, then two names for each job file.
fn main(rt: HostRuntime) -> io::Result<()> {
    let names: Vec<String> = env::args(&rt)?.skip(1).collect(rt.alloc())?;
    for pair in names.chunks(2) {
        match pair {
            [job, expected] => compare(&rt, job.as_str(), expected.as_str())?,
            [job] => compare(&rt, job.as_str(), "")?,
            _ => {}
        }
    }
    Ok(())
}
