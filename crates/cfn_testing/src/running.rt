//! A whole run over a desk in memory, and questions about what it said and wrote.

use crate::clocks::Still;
use cfn_app::{Gate, OpenGate, run};
use cfn_desk::MemoryDesk;
use std::alloc::{AllocError, AllocGlobal, Global};
use std::sync::Wait;
use std::thread::Threads;
use std::time::Clock;

/// One variable with two values, of costs 3 and 1.
pub const TINY: &[u8] = b"tiny 1 2 1 10\n2\n1 0 3 1\n1 1\n";

/// Three variables with two values, of which each two cost 1 where they agree.
pub const TRI: &[u8] =
    b"tri 3 2 3 10\n2 2 2\n2 0 1 0 2\n0 0 1\n1 1 1\n2 0 2 0 2\n0 0 1\n1 1 1\n2 1 2 0 2\n0 0 1\n1 1 1\n";

/// The words that solve `in` and write `out`.
pub const SOLVE: [&str; 4] = ["wcspsolve", "solve", "in", "out"];

/// How a run ended, what it said, and the file that was asked for, as the run left it. It is bytes alone: a desk that a test
/// kept would be part of the proof of each exit of the test.
#[derive(Drop)]
pub struct Run {
    /// The number of its status.
    pub status: u8,
    /// How many bytes the file has that is still being written, or 0.
    pub begun: usize,
    said: Vec<u8>,
    file: Option<Vec<u8>>,
}

impl Run {
    /// The run of these words, over a desk whose file `in` has these bytes and whose calls with these ordinals fail.
    pub fn of<R: AllocGlobal + Threads + Wait + Sync>(
        rt: &R,
        words: &[&str],
        file: &[u8],
        failing: &[u64],
    ) -> Result<Run, AllocError> {
        Run::over(rt, words, &[("in", file)], failing, "out")
    }

    /// The run of these words, over a desk with these files, whose calls with these ordinals fail; of the files it keeps
    /// the one of this name.
    pub fn over<R: AllocGlobal + Threads + Wait + Sync>(
        rt: &R,
        words: &[&str],
        files: &[(&str, &[u8])],
        failing: &[u64],
        kept: &str,
    ) -> Result<Run, AllocError> {
        let mut desk = MemoryDesk::make(rt.alloc(), files, 2000, 1000, failing)?;
        let status = run(rt, rt.alloc(), words, &mut desk, &OpenGate, &Still).code();
        let run = Run::left(rt.alloc(), status, &desk, kept);
        drop(desk);
        run
    }

    /// The run of these words over a desk whose file `in` has these bytes, in which workers pass a gate.
    pub fn gated<R: AllocGlobal + Threads + Wait + Sync, G: Gate + Sync>(
        rt: &R,
        words: &[&str],
        file: &[u8],
        gate: &G,
    ) -> Result<Run, AllocError> {
        let mut desk = MemoryDesk::make(rt.alloc(), &[("in", file)], 2000, 1000, &[])?;
        let status = run(rt, rt.alloc(), words, &mut desk, gate, &Still).code();
        let run = Run::left(rt.alloc(), status, &desk, "out");
        drop(desk);
        run
    }

    /// The run of these words over a desk whose file `in` has these bytes, by a clock.
    pub fn timed<R: AllocGlobal + Threads + Wait + Sync, C: Clock + Sync>(
        rt: &R,
        words: &[&str],
        file: &[u8],
        clock: &C,
    ) -> Result<Run, AllocError> {
        let mut desk = MemoryDesk::make(rt.alloc(), &[("in", file)], 200_000, 20_000, &[])?;
        let status = run(rt, rt.alloc(), words, &mut desk, &OpenGate, clock).code();
        let run = Run::left(rt.alloc(), status, &desk, "out");
        drop(desk);
        run
    }

    /// The run that ended with this status and left this desk.
    fn left(alloc: Global, status: u8, desk: &MemoryDesk, kept: &str) -> Result<Run, AllocError> {
        let said = Vec::from_slice(alloc, desk.said_bytes())?;
        let file = match desk.file(kept) {
            Some(bytes) => Some(Vec::from_slice(alloc, bytes)?),
            None => None,
        };
        Ok(Run {
            status,
            begun: desk.out_bytes().len(),
            said,
            file,
        })
    }

    /// The run of `solve in out` where no call fails.
    pub fn solve<R: AllocGlobal + Threads + Wait + Sync>(
        rt: &R,
        file: &[u8],
    ) -> Result<Run, AllocError> {
        Run::of(rt, &SOLVE, file, &[])
    }

    /// What was said.
    pub fn said(&self) -> &[u8] {
        &self.said
    }

    /// The file that was asked for, or nothing where there is none.
    pub fn file(&self) -> Option<&[u8]> {
        match &self.file {
            Some(bytes) => Some(bytes),
            None => None,
        }
    }

    /// The certificate that was written to its end, or nothing.
    pub fn certificate(&self) -> &[u8] {
        self.file().unwrap_or(b"")
    }

    /// Whether the certificate is whole, and begins with these bytes behind its first line.
    pub fn certifies(&self, front: &[u8]) -> bool {
        let certificate = self.certificate();
        let behind = certificate.strip_prefix(b"wcspcert 2\n").unwrap_or(b"");
        behind.starts_with(front) && certificate.ends_with(b"\nend\n")
    }

    /// Whether each of these lines was said.
    pub fn says(&self, lines: &[u8]) -> bool {
        lines
            .split(|byte| *byte == b'\n')
            .all(|line| has_line(self.said(), line))
    }
}

/// How a run of `solve` ended that is recorded, what it said, and both files that it was to write, each with no bytes where there is
/// none.
#[derive(Drop)]
pub struct RecordedRun {
    /// The number of its status.
    pub status: u8,
    said: Vec<u8>,
    certificate: Vec<u8>,
    record: Vec<u8>,
}

impl RecordedRun {
    /// The run of `solve in out` with these words behind, which have `--record rec`, over a desk whose file `in` has these bytes and
    /// whose calls with these ordinals fail, in which workers pass a gate.
    pub fn of<R: AllocGlobal + Threads + Wait + Sync, G: Gate + Sync>(
        rt: &R,
        words: &[&str],
        file: &[u8],
        failing: &[u64],
        gate: &G,
    ) -> Result<RecordedRun, AllocError> {
        let files = [("in", file)];
        let mut desk = MemoryDesk::make_two(rt.alloc(), &files, 20_000, 20_000, 2_000, failing)?;
        let status = run(rt, rt.alloc(), words, &mut desk, gate, &Still).code();
        let run = RecordedRun::left(rt.alloc(), status, &desk);
        drop(desk);
        run
    }

    /// The run that ended with this status and left this desk.
    fn left(alloc: Global, status: u8, desk: &MemoryDesk) -> Result<RecordedRun, AllocError> {
        let said = Vec::from_slice(alloc, desk.said_bytes())?;
        let certificate = Vec::from_slice(alloc, desk.file("out").unwrap_or(b""))?;
        let record = Vec::from_slice(alloc, desk.file("rec").unwrap_or(b""))?;
        Ok(RecordedRun {
            status,
            said,
            certificate,
            record,
        })
    }

    /// What was said.
    pub fn said(&self) -> &[u8] {
        &self.said
    }

    /// The certificate that was written, or no bytes.
    pub fn certificate(&self) -> &[u8] {
        &self.certificate
    }

    /// The record that was written, or no bytes.
    pub fn record(&self) -> &[u8] {
        &self.record
    }
}

/// The run of `replay in rec out` over a desk with these two files, whose calls with these ordinals fail.
pub fn replay<R: AllocGlobal + Threads + Wait + Sync>(
    rt: &R,
    file: &[u8],
    record: &[u8],
    failing: &[u64],
) -> Result<Run, AllocError> {
    let files = [("in", file), ("rec", record)];
    Run::over(
        rt,
        &["wcspsolve", "replay", "in", "rec", "out"],
        &files,
        failing,
        "out",
    )
}

/// Whether the run of these words over a file ends with this status, says this, and leaves this certificate, or none where
/// these are no bytes.
pub fn ends<R: AllocGlobal + Threads + Wait + Sync>(
    rt: &R,
    words: &[&str],
    file: &[u8],
    failing: &[u64],
    (status, said, certificate): (u8, &[u8], &[u8]),
) -> Result<bool, AllocError> {
    let run = Run::of(rt, words, file, failing)?;
    Ok(run.status == status && run.said() == said && run.certificate() == certificate)
}

/// Whether the run of these words over a file ends with this status, and says each of these lines.
pub fn says<R: AllocGlobal + Threads + Wait + Sync>(
    rt: &R,
    words: &[&str],
    file: &[u8],
    status: u8,
    lines: &[u8],
) -> Result<bool, AllocError> {
    let run = Run::of(rt, words, file, &[])?;
    Ok(run.status == status && run.says(lines))
}

/// Whether the run of these words over a file ends with this status, says each of these lines, and leaves a whole
/// certificate that begins with these bytes behind its first line.
pub fn certifies<R: AllocGlobal + Threads + Wait + Sync>(
    rt: &R,
    words: &[&str],
    file: &[u8],
    (status, lines, front): (u8, &[u8], &[u8]),
) -> Result<bool, AllocError> {
    let run = Run::of(rt, words, file, &[])?;
    Ok(run.status == status && run.says(lines) && run.certifies(front))
}

/// The certificate that `solve` writes of a file with this budget, or nothing where there is none.
pub fn certificate_of<R: AllocGlobal + Threads + Wait + Sync>(
    rt: &R,
    file: &[u8],
    budget: &str,
) -> Result<Vec<u8>, AllocError> {
    let mut desk = MemoryDesk::make(rt.alloc(), &[("in", file)], 20_000, 2_000, &[])?;
    let words = ["wcspsolve", "solve", "in", "out", "--budget", budget];
    let _status = run(rt, rt.alloc(), &words, &mut desk, &OpenGate, &Still);
    let certificate = Vec::from_slice(rt.alloc(), desk.file("out").unwrap_or(b""));
    drop(desk);
    certificate
}

/// Whether `check` ends with this status and says this, where these are the bytes of the two files.
pub fn check_answers<R: AllocGlobal + Threads + Wait + Sync>(
    rt: &R,
    file: &[u8],
    certificate: &[u8],
    status: u8,
    said: &[u8],
) -> Result<bool, AllocError> {
    let files = [("in", file), ("cert", certificate)];
    let mut desk = MemoryDesk::make(rt.alloc(), &files, 0, 500, &[])?;
    let words = ["wcspsolve", "check", "in", "cert"];
    let ended = run(rt, rt.alloc(), &words, &mut desk, &OpenGate, &Still).code();
    let answers = ended == status && desk.said_bytes() == said;
    drop(desk);
    Ok(answers)
}

/// Whether a line of a text begins with these bytes.
pub fn has_front(text: &[u8], front: &[u8]) -> bool {
    text.split(|byte| *byte == b'\n')
        .any(|line| line.starts_with(front))
}

/// Whether one of the lines of a text is this line.
pub fn has_line(text: &[u8], line: &[u8]) -> bool {
    text.split(|byte| *byte == b'\n').any(|other| other == line)
}
