// The lines of a rehearsal: reading one line of input byte by byte, in fixed memory, and writing one
// line of output.
//
// What a line says is defined over its bytes (specs/Fields.antt) and knows nothing of the scan; the
// scan takes a byte at a time, so a line may be longer than any buffer, and proofs/ScanIsLine.antt
// says that both agree. What the numbers mean, and where lines begin and end, is no business here.
#![tactic(auto)]

mod scan;
mod text;

pub use scan::{FIELDS, Fed, LARGEST, Scan};
pub use text::{ANSWER_ROOM, PAGE_LINE_ROOM, put_answer, put_page_line, put_unreadable};
