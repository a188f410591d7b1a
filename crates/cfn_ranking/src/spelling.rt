//! The text of a list.

ghost use Rattle.cfn_best.specs.Lines.{Spells};
ghost use Rattle.cfn_ranking.specs.Certificates.{list_certificate_of, spelling};

use crate::list::BestCertificate;

impl BestCertificate {
    /// Nothing: its contract tells a caller that every number of the certificate has a spelling, so that its text is the
    /// one spelling of the list.
    pub fn law_spelled(&self)
        ensures { Spells (list_certificate_of self.now) (spelling (list_certificate_of self.now)) }
    {
        let _variables = self.variables;
        let _functions = self.functions;
        self.tree.law_linked();
    }
}
