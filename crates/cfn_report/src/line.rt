//! A line of progress.

ghost use Rattle.std.specs.Prelude.{Some};
ghost use Rattle.cfn_report.specs.Text.{line_text};

use cfn_explore::News;
use std::fmt;

/// How far a search was after so many tenths of a second. It prints as one line, without the end of the line.
#[derive(Clone, Copy)]
pub struct Line {
    pub tenths: u64,
    pub news: News,
}

impl fmt::Display for Line {
    ghost output = { λ line. Some (line_text line) };

    fn fmt<W: fmt::Write>(&self, f: &mut fmt::Formatter<W>) -> fmt::Result {
        let (seconds, tenth) = (self.tenths / 10, self.tenths % 10);
        let (lower, nodes, leaves) = (self.news.bounds.lower, self.news.nodes, self.news.leaves);
        match self.news.bounds.upper {
            Some(upper) => write!(
                f,
                "progress {seconds}.{tenth} lower {lower} upper {upper} nodes {nodes} open {leaves}"
            ),
            None => write!(
                f,
                "progress {seconds}.{tenth} lower {lower} upper none nodes {nodes} open {leaves}"
            ),
        }
    }
}
