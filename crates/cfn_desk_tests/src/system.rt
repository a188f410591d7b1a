//! Tests of a desk over the system's files.

ghost use Rattle.cfn_desk.specs.Outside.{IsIdle};

use crate::calling::{begin_file, large_piece, write_and_load, write_file};
use cfn_desk::{Desk, Failed, HostDesk, LoadFault};
use std::alloc::AllocError;
use std::fs::{self, Permissions};
use std::io;
use std::os::unix::fs::{PermissionsExt, symlink};
use std::test::Fail;

/// What is asked of a desk over the system's files.
#[derive(Clone, Copy)]
enum Ask<'a> {
    /// Writes a file in two pieces, loads one, and says a line.
    Write((&'a str, &'a [u8], &'a [u8]), &'a str),
    /// Loads a file.
    Load(&'a str),
    /// Begins a file with a piece, and ends with it half written.
    Begin(&'a str, &'a [u8]),
    /// Begins a file, makes a folder of its name, and ends the file.
    OverFolder(&'a str),
    /// Writes two files of the same two pieces.
    Two((&'a str, &'a str), &'a [u8], &'a [u8]),
}

/// What came of the first and of the second writing, or of what was done in their place, and of the load.
#[derive(Clone, Copy, PartialEq, Eq)]
struct Told {
    first: Result<(), Failed>,
    second: Result<(), Failed>,
    load: Result<(), LoadFault>,
}

const DONE: Told = Told {
    first: Ok(()),
    second: Ok(()),
    load: Ok(()),
};

/// Asks any desk.
fn answer_of<D: Desk>(rt: &HostRuntime, desk: &mut D, ask: Ask<'_>, into: &mut Vec<u8>) -> Told
    requires { IsIdle (D.outside desk.old).calls }
{
    let mut told = DONE;
    match ask {
        Ask::Write(pieces, name) => {
            let kept = write_and_load(desk, pieces, name, into);
            told.first = kept.write;
            told.load = kept.load;
            told.second = desk.say(b"said\n");
        }
        Ask::Load(name) => told.load = desk.load(name, into),
        Ask::Begin(name, piece) => told.first = begin_file(desk, name, piece),
        Ask::OverFolder(name) => match begin_file(desk, name, b"piece") {
            Ok(()) => {
                if fs::create_dir(rt, name).is_ok() {
                    told.second = desk.close_out();
                }
            }
            Err(fault) => told.first = Err(fault),
        },
        Ask::Two(names, front, back) => {
            told.first = write_file(desk, names.0, front, back);
            told.second = write_file(desk, names.1, front, back);
        }
    }
    told
}

/// Asks a desk over the system's files. It is made here alone, since each function that has one is dear to prove.
fn asked(rt: &HostRuntime, question: Ask<'_>, into: &mut Vec<u8>) -> Result<Told, AllocError> {
    let mut desk = HostDesk::make(rt)?;
    let told = answer_of(rt, &mut desk, question, into);
    drop(desk);
    Ok(told)
}

/// Writes a file, loads one and says a line; whether all is done, and the load gave the two pieces.
fn writes(rt: &HostRuntime, pieces: (&str, &[u8], &[u8]), name: &str) -> Result<bool, AllocError> {
    let mut into = Vec::new(rt.alloc());
    let told = asked(rt, Ask::Write(pieces, name), &mut into)?;
    Ok(told == DONE && into.strip_prefix(pieces.1) == Some(pieces.2))
}

/// Whether a load is answered so, and gives these bytes.
fn loads(
    rt: &HostRuntime,
    name: &str,
    load: Result<(), LoadFault>,
    bytes: &[u8],
) -> Result<bool, AllocError> {
    let mut into = Vec::new(rt.alloc());
    let told = asked(rt, Ask::Load(name), &mut into)?;
    Ok(told.load == load && into.as_slice() == bytes)
}

/// What is answered where nothing is loaded.
fn wrote(
    rt: &HostRuntime,
    question: Ask<'_>,
) -> Result<(Result<(), Failed>, Result<(), Failed>), AllocError> {
    let mut into = Vec::new(rt.alloc());
    let told = asked(rt, question, &mut into)?;
    Ok((told.first, told.second))
}

/// Whether nothing stands at a name.
fn is_free(rt: &HostRuntime, name: &str) -> io::Result<bool> {
    Ok(!fs::exists(rt, name)?)
}

/// Removes these files.
fn remove(rt: &HostRuntime, names: &[&str]) -> io::Result<()> {
    for name in names {
        fs::remove_file(rt, name)?;
    }
    Ok(())
}

/// Writes a file whose second piece is large, and loads it.
fn writes_large(rt: &HostRuntime, name: &str) -> Result<bool, AllocError> {
    let large = large_piece(rt.alloc())?;
    writes(rt, (name, b"front", &large), name)
}

#[test]
fn host_desk_writes_and_reads_a_file(rt: HostRuntime) -> Result<(), Fail> {
    assert!(rt; writes_large(&rt, "written.txt")?);
    assert!(rt; is_free(&rt, "written.txt.part")?);
    remove(&rt, &["written.txt"])?;
    Ok(())
}

/// Makes a desk that begins a file with a large piece, and ends with it half written.
fn interrupts(rt: &HostRuntime, name: &str) -> Result<bool, AllocError> {
    let large = large_piece(rt.alloc())?;
    Ok(wrote(rt, Ask::Begin(name, &large))?.0 == Ok(()))
}

#[test]
fn host_desk_leaves_the_earlier_file_where_it_is_interrupted(rt: HostRuntime) -> Result<(), Fail> {
    fs::write(&rt, "kept.txt", "earlier")?;
    assert!(rt; interrupts(&rt, "kept.txt")?);
    assert!(rt; loads(&rt, "kept.txt", Ok(()), b"earlier")?);
    remove(&rt, &["kept.txt.part", "kept.txt"])?;
    Ok(())
}

#[test]
fn host_desk_writes_although_a_part_is_left(rt: HostRuntime) -> Result<(), Fail> {
    fs::write(&rt, "kept.txt", "earlier")?;
    assert!(rt; interrupts(&rt, "kept.txt")?);
    assert!(rt; writes(&rt, ("kept.txt", b"la", b"ter"), "kept.txt")?);
    assert!(rt; is_free(&rt, "kept.txt.part1")?);
    remove(&rt, &["kept.txt.part", "kept.txt"])?;
    Ok(())
}

#[test]
fn host_desk_removes_what_it_cannot_store(rt: HostRuntime) -> Result<(), Fail> {
    assert!(rt; wrote(&rt, Ask::OverFolder("folder"))? == (Ok(()), Err(Failed)));
    assert!(rt; is_free(&rt, "folder.part")?);
    fs::remove_dir(&rt, "folder")?;
    Ok(())
}

/// Makes a file that its owner may write and its group may read, and a link to it.
fn make_link(rt: &HostRuntime) -> io::Result<()> {
    fs::write(rt, "file.txt", "earlier")?;
    fs::set_permissions(rt, "file.txt", Permissions::from_mode(0o640))?;
    symlink(rt, "file.txt", "link.txt")
}

/// Whether that link is one still, and the file has its mode.
fn keeps_link(rt: &HostRuntime) -> io::Result<bool> {
    let mode = fs::metadata(rt, "file.txt")?.permissions().mode();
    Ok(mode & 0o777 == 0o640 && fs::symlink_metadata(rt, "link.txt")?.is_symlink())
}

#[test]
fn host_desk_keeps_links_and_modes(rt: HostRuntime) -> Result<(), Fail> {
    make_link(&rt)?;
    assert!(rt; writes(&rt, ("link.txt", b"la", b"ter"), "file.txt")?);
    assert!(rt; keeps_link(&rt)?);
    remove(&rt, &["link.txt", "file.txt"])?;
    Ok(())
}

#[test]
fn host_desk_keeps_devices(rt: HostRuntime) -> Result<(), Fail> {
    let devices = Ask::Two(("/dev/null", "/dev/full"), b"no", b"thing");
    assert!(rt; wrote(&rt, devices)? == (Ok(()), Err(Failed)));
    assert!(rt; !fs::metadata(&rt, "/dev/null")?.is_file());
    Ok(())
}

#[test]
fn host_desk_fails_without_a_file(rt: HostRuntime) -> Result<(), Fail> {
    assert!(rt; loads(&rt, "missing", Err(LoadFault::Failed), b"")?);
    let nowhere = Ask::Two(("no folder/out", "."), b"", b"");
    assert!(rt; wrote(&rt, nowhere)? == (Err(Failed), Err(Failed)));
    Ok(())
}
