mod chunk_files;
mod proof_files;

use crate::words::three;
use st_base::read_number;

// A case of a table: the wanted number of each kind, the answer, and the file.
fn case_of(line: &str) -> Option<(usize, &str, &str)> {
    let (wanted, answer, file) = three(line)?;
    let wanted = read_number(wanted.as_bytes(), 10_000)?;
    Some((wanted as usize, answer, file))
}
