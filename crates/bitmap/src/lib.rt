// Bitmaps in words of 32 bits, by what is done with them: `words`, one word; `rows`, a run written; `runs`, the lowest run;
// `row_scans`, a run or the next set place looked at.
#![tactic(auto)]

pub mod row_scans;
pub mod rows;
pub mod runs;
pub mod words;
