//! Writing a certificate and saying its report.

ghost use Rattle.std.specs.Prelude.{◌≡◌, ◌≤◌, All, length, OnOk, OnErr};
ghost use Rattle.cfn_model.specs.Certificate.{threshold};
ghost use Rattle.cfn_model.specs.Text.{report, spelling};
ghost use Rattle.cfn_desk.specs.Outside.{IsWriting};
ghost use Rattle.cfn_proof.specs.Certificates.{certificate_of, solution_of};
ghost use Rattle.cfn_app.specs.Endings.{Ends, Outputs, Wrote, NotWritten};
ghost use Rattle.cfn_app.specs.Runs.Solving.{status_of, word_of};

use crate::status::{Status, ending};
use cfn_desk::{Desk, Failed};
use cfn_low::{Outcome, Stop};
use cfn_model::ResultWord;
use cfn_proof::Certificate;
use cfn_report::Report;
use cfn_solve::Teamwork;

/// Writes the certificate that a search found into the file that was opened, and then says its report. It takes no memory.
/// The status is the result's, or that of a fault. The workers that the report tells are those of whom each told a threshold, and
/// the certificate's threshold is at most each of these.
pub fn put_out<D: Desk>(found: &Teamwork, workers: u32, desk: &mut D) -> Status
    requires workers { length found.now.thresholds.items ≡ workers }
    requires least { All (λ k. threshold (certificate_of found.now.outcome.certificate) ≤ k) found.now.thresholds.items }
    requires writing { IsWriting (D.outside desk.old).calls }
    ensures { Outputs (spelling (certificate_of found.now.outcome.certificate))
        (report workers (certificate_of found.now.outcome.certificate) found.now.outcome.rows.items found.now.outcome.nodes
        (word_of found.now.outcome.stop (solution_of found.now.outcome.certificate.best)))
        (status_of (word_of found.now.outcome.stop (solution_of found.now.outcome.certificate.best)))
        (D.outside desk.old) (D.outside desk.new) result }
{
    if save(&found.outcome.certificate, desk).is_err() {
        return ending(cfn_report::write_write_fault(desk), Status::Fault);
    }
    say_report(found, workers, desk)
}

/// Says the report of a search. It takes no memory. The status is the result's, or that of a fault. The workers that the report tells
/// are those of whom each told a threshold, and the certificate's threshold is at most each of these.
pub(crate) fn say_report<D: Desk>(found: &Teamwork, workers: u32, desk: &mut D) -> Status
    requires workers { length found.now.thresholds.items ≡ workers }
    requires least { All (λ k. threshold (certificate_of found.now.outcome.certificate) ≤ k) found.now.thresholds.items }
    ensures ends { Ends (record {
      calls = (D.outside desk.old).calls;
      text = report workers (certificate_of found.now.outcome.certificate) found.now.outcome.rows.items found.now.outcome.nodes
          (word_of found.now.outcome.stop (solution_of found.now.outcome.certificate.best));
      status = status_of (word_of found.now.outcome.stop (solution_of found.now.outcome.certificate.best));
    }) (D.outside desk.new).calls result }
    ensures files { (D.outside desk.new).files ≡ (D.outside desk.old).files }
{
    let outcome = &found.outcome;
    let word = result_word(outcome);
    let report = Report {
        workers,
        certificate: &outcome.certificate,
        rows: &outcome.rows,
        nodes: outcome.nodes,
        word,
    };
    ending(cfn_report::write(&report, desk), status(word))
}

/// Writes a certificate into the file that was opened, and closes it. It takes no memory. After an `Err` no file is being
/// written: where a piece failed it was dropped.
pub(crate) fn save<D: Desk>(certificate: &Certificate, desk: &mut D) -> Result<(), Failed>
    requires { IsWriting (D.outside desk.old).calls }
    ensures wrote { OnOk result (Wrote (spelling (certificate_of certificate.now))
        (D.outside desk.old) (D.outside desk.new)) }
    ensures not_written { OnErr result (NotWritten (spelling (certificate_of certificate.now))
        (D.outside desk.old) (D.outside desk.new)) }
{
    if cfn_certwrite::write(certificate, desk).is_err() {
        desk.discard_out();
        return Err(Failed);
    }
    desk.close_out()
}

/// The result of a search, by why it stopped.
fn result_word(outcome: &Outcome) -> ResultWord
    ensures { result ≡ word_of outcome.now.stop (solution_of outcome.now.certificate.best) }
{
    match outcome.stop {
        Stop::Done => match &outcome.certificate.best {
            Some(_) => ResultWord::Optimum,
            None => ResultWord::Nothing,
        },
        Stop::Budget => ResultWord::Budget,
        Stop::Time => ResultWord::Time,
        Stop::Part => ResultWord::Part,
        Stop::Memory => ResultWord::Memory,
    }
}

/// The status that stands for a result.
fn status(word: ResultWord) -> Status
    ensures { result ≡ status_of word }
{
    match word {
        ResultWord::Optimum => Status::Done,
        ResultWord::Nothing => Status::Nothing,
        ResultWord::Budget | ResultWord::Time | ResultWord::Part => Status::LimitSpent,
        ResultWord::Memory => Status::NoMemory,
    }
}
