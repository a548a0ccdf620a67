// What the layers above share: the line, the queues of arrivals, the free slots as a set.
pub mod arrivals;
pub mod line;
pub mod openings;
