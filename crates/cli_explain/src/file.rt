// A file of replies, read one by one: an ESI of 237 characters or a PTE of 317, and its LF.
use crate::Untold;
use crate::parts::Reply;
use cli_files::read_in;
use std::io::Read;

// Reads the next reply; none at the file's end.
pub fn read_next<R: Read>(input: &mut R) -> Result<Option<Reply>, Untold> {
    let mut head = [0u8; 238];
    let count = read_in(input, &mut head)?;
    if count == 0 {
        return Ok(None);
    }
    if count == 238 && head.starts_with(b">>PTE317") {
        pass_rest(input)?;
    } else if count != 238 || !head.starts_with(b">>ESI237") || head[237] != b'\n' {
        return Err(Untold::NotReplies);
    }
    Ok(Some(Reply::of(&head)))
}

// The rest of a PTE, which says nothing.
fn pass_rest<R: Read>(input: &mut R) -> Result<(), Untold> {
    let mut rest = [0u8; 80];
    if read_in(input, &mut rest)? == 80 && rest[79] == b'\n' {
        return Ok(());
    }
    Err(Untold::NotReplies)
}
