// The count of a replayed sample, printed. No contract can say what is printed.
use crate::tally::Tally;
use std::io;

// The answers, the differences with the line of the first, and the malformed lines. Each part is a write of its own: where one fails, what
// stands before it is out.
pub fn print(rt: &impl Print, t: Tally) -> io::Result<()> {
    rt.print(t.answers)?;
    rt.print(" answers replayed, ")?;
    rt.print(t.differences)?;
    rt.print(" differences, ")?;
    rt.print(t.malformed)?;
    rt.println(" malformed lines")?;
    if t.first > 0 {
        rt.print("first difference at line ")?;
        rt.print(t.first)?;
        rt.println("")?;
    }
    Ok(())
}
