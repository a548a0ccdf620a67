// The phases of a run, listed from its log.
ghost use Rattle.texts.specs.Lines.{phase_lines};
ghost use Rattle.texts.specs.parts.Writing.{Reaches, Wrote};
ghost use Rattle.runtexts.specs.parts.Logs.{phases_in, Readable};

use gathering::parts::rounds;
use texts::parts::lines;

// The lines of the first n phases of a run's log, from the front of the buffer; the position behind them.
pub fn put_phases(out: &mut [u8], log: &[u16], n: usize) -> usize
    requires { Readable n log.now × Reaches (phase_lines 1 (phases_in n log.now)) 0 out.old }
    ensures { Wrote (phase_lines 1 (phases_in n log.now)) out.old 0 out.new result }
{
    let mut next: usize = 0;
    let mut low: usize = 0;
    for j in 0..n {
        let high = 2 * (log[rounds::ENDS + j] as usize);
        next = lines::put_phase(out, next, j + 1, &log[low..high]);
        low = high;
    }
    next
}
