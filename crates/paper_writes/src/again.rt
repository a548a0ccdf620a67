// A file read back, compared with the job that it was written from, and written again.
use crate::given;
use given::Given;
use racks::Job;

// Whether a job, written, gives the bytes of a file.
fn written_same(file: &[u8], job: Given) -> bool {
    let mut out = [0u8; 12289];
    match job.write(&mut out) {
        Ok(size) => size <= out.len() && &out[..size] == file,
        Err(_) => false,
    }
}

// Whether what a file gives is the job that was written, and gives the bytes of the file again.
pub fn same(file: &[u8], job: Given) -> bool {
    let mut caps = [7u16; Job::MAX_RACKS];
    let mut places = [7u16; Job::MAX_SLOTS];
    let given = jobfile::read_file(file, &mut caps, &mut places);
    let Ok(found) = given else {
        return false;
    };
    if caps.len() < found.racks || places.len() < found.slots {
        return false;
    }
    let read = Given {
        caps: &caps[..found.racks],
        b: found.bytes,
        places: &places[..found.slots],
        cards: jobfile::card_bytes(file, given),
    };
    read.caps == job.caps
        && read.places == job.places
        && read.cards == job.cards
        && written_same(file, read)
}
