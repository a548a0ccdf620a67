// Paper cards for the copy list, the shuffle and the whole run by hand; `paper_rings` has the jobs that fill the limits.
#![tactic(auto)]

use std::io;

mod say;
mod small;

fn main(rt: HostRuntime) -> io::Result<()> {
    small::run(&mut io::writer(&rt))
}
