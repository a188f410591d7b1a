//! Reading all that a reader has left.

ghost use Rattle.std.specs.Prelude.{◌≡◌, ◌≤◌, ◌++◌, vec_len, IfSome, IfOk, IsTrue, OnOk};
ghost use Rattle.std.specs.Io.KnownBytes.{IsAtEnd};
ghost use Rattle.cfn_desk.specs.Read.{ReadsBehind};

use crate::storage::ReadFault;
use std::io;
use std::io::{ErrorKind, Read};

/// How many bytes one read asks for.
const CHUNK_SIZE: usize = 65536;

/// How many bytes a file that is read may have.
pub const FILE_LIMIT: usize = 1099511627776;

/// Adds the bytes that the file has left.
pub(crate) fn read_all<F: Read>(file: &mut F, into: &mut Vec<u8>) -> Result<(), ReadFault>
    ensures limit { OnOk result (vec_len into.new ≤ FILE_LIMIT) }
    ensures read { OnOk result
        (IfSome (F.remaining file.old) (λ left. into.new.items ≡ into.old.items ++ left)) }
{
    for _ in 0..u64::MAX {
        if read_chunk(file, into)? {
            return Ok(());
        }
    }
    Err(ReadFault::Failed(io::Error::from(ErrorKind::Interrupted)))
}

/// Adds what one read gives, and answers whether the file is at its end. A read that a signal cut
/// short adds nothing.
fn read_chunk<F: Read>(file: &mut F, into: &mut Vec<u8>) -> Result<bool, ReadFault>
    ensures read { OnOk result (ReadsBehind into.old.items into.new.items
        (F.remaining file.old) (F.remaining file.new)) }
    ensures end { IfOk result (λ ended. IsTrue ended → IsAtEnd (F.remaining file.new)) }
    ensures limit { IfOk result (λ ended. IsTrue ended → vec_len into.new ≤ FILE_LIMIT) }
{
    let start = into.len();
    if into.resize(start + CHUNK_SIZE, 0).is_err() {
        return Err(ReadFault::Memory);
    }
    match file.read(&mut into[start..]) {
        Ok(count) => {
            into.truncate(start + count);
            if into.len() > FILE_LIMIT {
                return Err(ReadFault::Failed(io::Error::from(ErrorKind::FileTooLarge)));
            }
            Ok(count == 0)
        }
        Err(error) => {
            into.truncate(start);
            if error.kind() == ErrorKind::Interrupted {
                return Ok(false);
            }
            Err(ReadFault::Failed(error))
        }
    }
}
